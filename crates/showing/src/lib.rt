// The whole text of a deployment file, built in a lent place from the bytes of the file. What is printed is in specs/Text.antt.

#![tactic(auto)]

ghost use Rattle.std.specs.Prelude.{◌≡◌, Ok};
ghost use Rattle.deployment.specs.FieldValues.{left_by, writing};
ghost use Rattle.lines.specs.Printing.{Whole};
ghost use Rattle.reader.specs.Answers.{file_read};
ghost use Rattle.showing.specs.Text.{show_printed};
ghost use Rattle.showing.specs.Printing.{most_shown};

use deployment::Refusal;
use lines::outcomes::put_refused;
use lines::whole::whole_text;
use lists::{put_default, put_keep, put_policies, put_script};
use reader::Layout;
use reader::file::{read, value_given};
use rule_lines::rules::put_catalogue;

mod lists;

// No text is longer: a place of so many bytes is never too small.
pub const MOST_SHOWN: usize = 262144;

// What `showlist` prints for a file: what it contains, or the refusal.
pub fn show_text(file: &[u8], place: &mut [u8]) -> Result<usize, Refusal>
    ensures { left_by result place.new ≡ writing (show_printed file.now) place.old }
{
    whole_text(|place| put_shown(file, place), MOST_SHOWN, place)
}

// The text of what the file contains, or of the refusal.
fn put_shown(file: &[u8], place: &mut [u8]) -> usize
    ensures { Whole most_shown place.old (show_printed file.now) place.new result }
{
    match read(file) {
        Err(refusal) => put_refused(place, refusal),
        Ok(layout) => put_contents(file, layout, place),
    }
}

// The catalogue, both policies and their default, the keep list and the script of an accepted file.
fn put_contents(file: &[u8], layout: Layout, place: &mut [u8]) -> usize
    requires { Ok layout ≡ file_read file.now }
    ensures { Whole most_shown place.old (show_printed file.now) place.new result }
{
    let mut next = put_catalogue(place, 0, file, layout.rules);
    next = put_policies(place, next, file, layout.initial, layout.target);
    next = put_default(place, next, layout.default.is_some());
    next = put_keep(place, next, value_given(file, layout.keep));
    put_script(place, next, value_given(file, layout.script))
}
