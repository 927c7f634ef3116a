// Console text: a script as text for a maker's console, and text read back, each as a function that C can call. The number is returned, its
// values stand in `answer`; `maker_b` is true for maker B and false for maker A.

ghost use Rattle.console.specs.Makers.{maker_of};
ghost use Rattle.plans.specs.Plans.{made_one, made_two};
ghost use Rattle.console_text.specs.Answers.{text_of_value, text_of_file, text_of_plan, script_of_text};
ghost use Rattle.pageoriole.specs.Answers.{Leaves, write_outcome};

use console::maker_of;
use console_reader::text_script;
use console_writer::files::{plan_one_text, plan_two_text, script_text as file_text};
use console_writer::script_text;
use told::tell_written;

// The text of a script value, in the first bytes of `place`: bytes.
#[unsafe(no_mangle)]
pub extern "C" fn pageoriole_script_text(
    script: &[u8],
    maker_b: bool,
    place: &mut [u8],
    answer: &mut [u64],
) -> u32
    ensures { Leaves
        (write_outcome (text_of_value (maker_of maker_b) script.now place.old))
        result answer.old answer.new place.new }
{
    tell_written(script_text(script, maker_of(maker_b), place), answer)
}

// The text of the file's own script.
#[unsafe(no_mangle)]
pub extern "C" fn pageoriole_script_text_file(
    file: &[u8],
    maker_b: bool,
    place: &mut [u8],
    answer: &mut [u64],
) -> u32
    ensures { Leaves
        (write_outcome (text_of_file (maker_of maker_b) file.now place.old))
        result answer.old answer.new place.new }
{
    tell_written(file_text(file, maker_of(maker_b), place), answer)
}

// The text of the plan by append and delete for the file's policies.
#[unsafe(no_mangle)]
pub extern "C" fn pageoriole_plan_one_text(
    file: &[u8],
    maker_b: bool,
    place: &mut [u8],
    answer: &mut [u64],
) -> u32
    ensures { Leaves
        (write_outcome (text_of_plan (maker_of maker_b) made_one file.now place.old))
        result answer.old answer.new place.new }
{
    tell_written(plan_one_text(file, maker_of(maker_b), place), answer)
}

// The same by insert, delete and move.
#[unsafe(no_mangle)]
pub extern "C" fn pageoriole_plan_two_text(
    file: &[u8],
    maker_b: bool,
    place: &mut [u8],
    answer: &mut [u64],
) -> u32
    ensures { Leaves
        (write_outcome (text_of_plan (maker_of maker_b) made_two file.now place.old))
        result answer.old answer.new place.new }
{
    tell_written(plan_two_text(file, maker_of(maker_b), place), answer)
}

// Text read back as a script of a type: the script field fills the first bytes of `place`: bytes.
#[unsafe(no_mangle)]
pub extern "C" fn pageoriole_text_script(
    text: &[u8],
    kind: u8,
    maker_b: bool,
    place: &mut [u8],
    answer: &mut [u64],
) -> u32
    ensures { Leaves
        (write_outcome (script_of_text (maker_of maker_b) kind text.now place.old))
        result answer.old answer.new place.new }
{
    tell_written(text_script(text, kind, maker_of(maker_b), place), answer)
}
