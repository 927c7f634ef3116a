// Saved iptables rules, brought in: from a listing to a deployment file with its FORWARD list as both policies. What a listing means stands in
// `iptables`. The listing is gone through once, and where each different rule stands is kept; nothing is written before all has passed.

#![tactic(auto)]

ghost use Rattle.std.specs.Prelude.{ℕ, ◌+◌, ◌≤◌, ◌≡◌, true, List, length, drop};
ghost use Rattle.policy.specs.Policy.{most_rules};
ghost use Rattle.deployment.specs.FieldValues.{left_by};
ghost use Rattle.iptables.specs.Words.{line_feed, cut_at};
ghost use Rattle.iptables.specs.Answers.{file_of_listing};
ghost use Rattle.iptables_reader.specs.Gathering.{with_default, going_on, SomeFound, Steps, GatheredAs, Finishes, Writes};

use deployment::{Refusal, Why};
use file::{bytes_needed, put_file};
use format::{LIST_BYTES, NUMBER_BYTES};
use iptables_lines::{Line, is_filter, line_read};
use iptables_words::cut;
use policy::{Action, MOST_RULES};
use table::keep;

mod file;
mod table;

const LINE_FEED: u8 = b'\n';

// "512 in a policy"
const MOST_LISTED: usize = LIST_BYTES / NUMBER_BYTES;

// No file of a listing is longer: a place of so many bytes is never too small.
pub const MOST_FILE: usize = 17418;

// What the lines so far have: whether the next one stands in the `*filter` part, how many `:FORWARD` lines there are, counted to 2, whether the last of
// them permits, and how many different rules, counted to 1,025.
#[derive(Clone, Copy)]
struct Seen {
    inside: bool,
    defaults: u8,
    permits: bool,
    rules: usize,
}

// One `:FORWARD` line more.
fn with_default(seen: Seen, action: Action) -> Seen
    ensures { result ≡ with_default seen action }
{
    let permits = match action {
        Action::Permit => true,
        Action::Deny => false,
    };
    let defaults = if seen.defaults == 0 { 1u8 } else { 2 };
    Seen {
        defaults,
        permits,
        ..seen
    }
}

// A line that has no rule and no default: the next one stands in the part, or not.
fn going_on(seen: Seen, inside: bool) -> Seen
    ensures { result ≡ going_on seen inside }
{
    Seen { inside, ..seen }
}

// One line of the part more, from `start` to `end`.
fn stepped_inside(
    listing: &[u8],
    start: usize,
    end: usize,
    seen: Seen,
    marks: &mut [u32],
    starts: &mut [usize],
) -> Result<Seen, Why>
    requires { (end ≡ start + cut_at line_feed (drop start listing.now)) × (end ≤ length listing.now) × (seen.inside ≡ true)
        × SomeFound listing.now marks.old starts.old seen }
    ensures { Steps listing.now start seen marks.old starts.old result marks.new starts.new }
{
    match line_read(&listing[start..end])? {
        Line::Opens => Ok(going_on(seen, true)),
        Line::Closes => Ok(going_on(seen, false)),
        Line::Passed => Ok(going_on(seen, true)),
        Line::Default(action) => Ok(with_default(seen, action)),
        Line::Rule(bytes) => Ok(Seen {
            inside: true,
            rules: keep(listing, marks, starts, seen.rules, start, bytes),
            ..seen
        }),
    }
}

// One line more. "Outside the `*filter` part everything is passed over."
fn stepped(
    listing: &[u8],
    start: usize,
    end: usize,
    seen: Seen,
    marks: &mut [u32],
    starts: &mut [usize],
) -> Result<Seen, Why>
    requires { (end ≡ start + cut_at line_feed (drop start listing.now)) × (end ≤ length listing.now)
        × SomeFound listing.now marks.old starts.old seen }
    ensures { Steps listing.now start seen marks.old starts.old result marks.new starts.new }
{
    if !seen.inside {
        return Ok(going_on(seen, is_filter(&listing[start..end])));
    }
    stepped_inside(listing, start, end, seen, marks, starts)
}

// All lines, one after another: 57 and 58 by line, and 57 where the listing ends inside the part.
fn gather(listing: &[u8], marks: &mut [u32], starts: &mut [usize]) -> Result<Seen, Refusal>
    requires { (length marks.old ≡ most_rules) × (length starts.old ≡ most_rules) }
    ensures { GatheredAs listing.now marks.new starts.new result }
{
    let mut seen = Seen {
        inside: false,
        defaults: 0,
        permits: false,
        rules: 0,
    };
    let mut number = 1;
    let mut start = 0;
    let mut end = cut(listing, start, LINE_FEED);
    // Kept: a turn goes on behind a line, as long as it is.
    while end < listing.len() {
        seen = match stepped(listing, start, end, seen, marks, starts) {
            Ok(next) => next,
            Err(why) => return Err(Refusal { why, at: number }),
        };
        number += 1;
        start = end + 1;
        end = cut(listing, start, LINE_FEED);
    }
    if seen.inside {
        return Err(Refusal {
            why: Why::NotRead,
            at: number,
        });
    }
    Ok(seen)
}

// "57 at 0 unless just one `:FORWARD` line stands ..; then 7 at 0 .., then 4 at 0"
fn finished(seen: Seen) -> Result<(), Why>
    ensures { Finishes seen result }
{
    if seen.defaults != 1 {
        return Err(Why::NotRead);
    }
    if MOST_RULES < seen.rules {
        return Err(Why::TooMany);
    }
    if MOST_LISTED < seen.rules {
        return Err(Why::Length);
    }
    Ok(())
}

// The file of what all lines have, in the first bytes of the place; last 13.
fn written(listing: &[u8], starts: &[usize], seen: Seen, place: &mut [u8]) -> Result<usize, Refusal>
    requires { (marks : List ℕ) × SomeFound listing.now marks starts.now seen }
    ensures { Writes listing.now starts.now seen place.old result place.new }
{
    finished(seen)?;
    let needed = bytes_needed(seen.rules, seen.permits);
    if place.len() < needed {
        return Err(Refusal {
            why: Why::Room,
            at: needed,
        });
    }
    put_file(listing, starts, seen.rules, seen.permits, place);
    Ok(needed)
}

// The deployment file of a listing, in the first bytes of the place: 57 and 58 by line, then 57, 7 and 4 at 0, and last 13.
pub fn from_iptables(listing: &[u8], place: &mut [u8]) -> Result<usize, Refusal>
    ensures { left_by result place.new ≡ file_of_listing listing.now place.old }
{
    let mut marks = [0u32; MOST_RULES];
    let mut starts = [0usize; MOST_RULES];
    let seen = gather(listing, &mut marks, &mut starts)?;
    written(listing, &starts, seen, place)
}
