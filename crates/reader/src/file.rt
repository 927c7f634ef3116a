// The deployment file: its fields read left to right.

ghost use Rattle.std.specs.Prelude.{◌≡◌, ℕ, ◌<◌, ◌≤◌, min, false, ◌&&◌, List, length, take, drop, eqb, leb};
ghost use Rattle.policy.specs.Lists.{mem};
ghost use Rattle.policy.specs.Policy.{most_rules};
ghost use Rattle.deployment.specs.Values.{rule_of, known};
ghost use Rattle.deployment.specs.Catalogue.{catalogue_of};
ghost use Rattle.deployment.specs.Checked.{good};
ghost use Rattle.deployment.specs.File.{Fields, rule_tag, tags_after, last_tag, field_read, length_fits, with_field, at_end, nothing, read_to_judge};
ghost use Rattle.deployment.specs.Properties.{Readable, fields_bytes};
ghost use Rattle.catalogue.specs.Answers.{checking};
ghost use Rattle.deployment.specs.FieldValues.{lent};
ghost use Rattle.reader.specs.Answers.{value_at, value_given, value_or_empty, span_from, shown, file_read};
ghost use Rattle.catalogue.specs.RuleMarks.{Apart};
ghost use Rattle.reader.specs.Steps.{More, Begun, layout_so_far, progress_of, head_shown, step_from};

use super::{Layout, Span};
use catalogue::rule::{apart, rule_tested};
use deployment::{Refusal, Why};
use format::{
    DEFAULT_BYTES, DEFAULT_TAG, HEAD_BYTES, INITIAL_TAG, KEEP_TAG, RULE_BYTES, RULE_TAG,
    SCRIPT_TAG, TARGET_TAG, two_at,
};
use policy::MOST_RULES;
use values::{
    default_checked, keep_checked, list_fits, policy_checked, script_checked, script_fits,
};

// A field's head: its tag and the length of its value.
#[derive(Clone, Copy)]
struct Head {
    tag: u8,
    size: usize,
}

// What has been read: the position, the tag of the last field (that of a rule at the start), and where the values stand.
#[derive(Clone, Copy)]
struct Progress {
    at: usize,
    last: u8,
    layout: Layout,
}

// "the part of the file that is its value"; what there is of it where the file is shorter.
pub fn value<'a>(file: &'a [u8], span: Span) -> &'a [u8]
    ensures { result.now ≡ value_at span file.now }
{
    let start = span.start.min(file.len());
    let size = span.size.min(file.len() - start);
    &file[start..start + size]
}

// The value of a field that may be absent.
pub fn value_given<'a>(file: &'a [u8], span: Option<Span>) -> Option<&'a [u8]>
    ensures { lent result ≡ value_given span file.now }
{
    span.map(|span| value(file, span))
}

// The same, and nothing of a field that is absent.
pub fn value_or_empty<'a>(file: &'a [u8], span: Option<Span>) -> &'a [u8]
    ensures { result.now ≡ value_or_empty span file.now }
{
    match span {
        Some(span) => value(file, span),
        None => &file[..0],
    }
}

// 2: whether a tag can stand after the last one.
fn can_stand(last: u8, tag: u8) -> bool
    ensures { result ≡ mem tag (tags_after last) }
{
    match last {
        RULE_TAG => tag == RULE_TAG || tag == INITIAL_TAG,
        INITIAL_TAG => tag == TARGET_TAG,
        TARGET_TAG => tag == DEFAULT_TAG || tag == KEEP_TAG || tag == SCRIPT_TAG,
        DEFAULT_TAG => tag == KEEP_TAG || tag == SCRIPT_TAG,
        KEEP_TAG => tag == SCRIPT_TAG,
        _ => false,
    }
}

// 4: whether a field of this tag can have this length.
fn length_fits(tag: u8, size: usize) -> bool
    ensures { result ≡ length_fits tag size }
{
    match tag {
        RULE_TAG => size == RULE_BYTES,
        DEFAULT_TAG => size == DEFAULT_BYTES,
        SCRIPT_TAG => script_fits(size),
        _ => list_fits(size),
    }
}

// 7: "a 1,025th rule"
fn one_too_many(tag: u8, rules: usize) -> bool
    ensures { result ≡ (eqb tag rule_tag && leb most_rules rules) }
{
    tag == RULE_TAG && MOST_RULES <= rules
}

// The head of the next field: 1 for the head, 2, 7, 4, 1 for the value.
fn field_head(file: &[u8], progress: Progress) -> Result<Head, Why>
    requires { progress.at < length file.now }
    ensures { (f : Fields) → Begun file.now progress f → result ≡ head_shown (field_read f (drop progress.at file.now)) }
{
    let at = progress.at;
    let left = file.len() - at;
    if left < HEAD_BYTES {
        return Err(Why::Cut);
    }
    let tag = file[at];
    if !can_stand(progress.last, tag) {
        return Err(Why::Tag);
    }
    if one_too_many(tag, progress.layout.rules) {
        return Err(Why::TooMany);
    }
    let size = two_at(file, at + 1) as usize;
    if !length_fits(tag, size) {
        return Err(Why::Length);
    }
    if left < HEAD_BYTES + size {
        return Err(Why::Cut);
    }
    Ok(Head { tag, size })
}

// The tests of a value, by its tag: 5, 6; or 8, 9; or 50; or 10; or 11.
fn checked(
    file: &[u8],
    progress: Progress,
    differing: usize,
    tag: u8,
    bytes: &[u8],
) -> Result<(), Why>
    requires { tag ≡ rule_tag → progress.layout.rules < differing
        → known (rule_of bytes.now) (take progress.layout.rules (catalogue_of 3 file.now)) ≡ false }
    ensures { (f : Fields) → Begun file.now progress f
        → field_read f (drop progress.at file.now) ≡ good (record { tag = tag; value = bytes.now })
        → result ≡ checking (with_field f (record { tag = tag; value = bytes.now })) }
{
    match tag {
        RULE_TAG => rule_tested(
            file,
            HEAD_BYTES as u8,
            progress.layout.rules,
            bytes,
            differing,
        ),
        DEFAULT_TAG => default_checked(bytes),
        KEEP_TAG => keep_checked(
            bytes,
            value(file, progress.layout.initial),
            value(file, progress.layout.target),
        ),
        SCRIPT_TAG => script_checked(bytes),
        _ => policy_checked(bytes, progress.layout.rules),
    }
}

// The places with that of one more value.
fn placed(layout: Layout, tag: u8, span: Span) -> Layout
    requires { layout.rules ≤ most_rules }
    ensures { (f g : Fields) (value : List ℕ) → More f tag value g → layout ≡ layout_so_far f → span ≡ span_from (length (fields_bytes f)) value
        → result ≡ layout_so_far g }
{
    match tag {
        RULE_TAG => Layout {
            rules: layout.rules + 1,
            ..layout
        },
        INITIAL_TAG => Layout {
            initial: span,
            ..layout
        },
        TARGET_TAG => Layout {
            target: span,
            ..layout
        },
        DEFAULT_TAG => Layout {
            default: Some(span),
            ..layout
        },
        KEEP_TAG => Layout {
            keep: Some(span),
            ..layout
        },
        _ => Layout {
            script: Some(span),
            ..layout
        },
    }
}

// The next field: its head, then its value; what has been read then.
fn next_field(file: &[u8], progress: Progress, differing: usize) -> Result<Progress, Why>
    requires { (progress.at < length file.now) × ((f : Fields) × Begun file.now progress f) × Apart 3 differing file.now }
    ensures { (f : Fields) → Begun file.now progress f → result ≡ step_from f (drop progress.at file.now) }
{
    let head = field_head(file, progress)?;
    let start = progress.at + HEAD_BYTES;
    let span = Span {
        start,
        size: head.size,
    };
    checked(file, progress, differing, head.tag, value(file, span))?;
    Ok(Progress {
        at: start + head.size,
        last: head.tag,
        layout: placed(progress.layout, head.tag, span),
    })
}

// 3: "the file ends before a target policy", at the file's length.
fn ended(progress: Progress) -> Result<Layout, Refusal>
    ensures { (f : Fields) → Readable f → progress ≡ progress_of f → result ≡ shown (at_end f progress.at) }
{
    if progress.last < TARGET_TAG {
        return Err(Refusal {
            why: Why::NoTarget,
            at: progress.at,
        });
    }
    Ok(progress.layout)
}

// Before the first field.
fn nothing_read() -> Progress
    ensures { result ≡ progress_of nothing }
{
    let nowhere = Span { start: 0, size: 0 };
    Progress {
        at: 0,
        last: RULE_TAG,
        layout: Layout {
            rules: 0,
            initial: nowhere,
            target: nowhere,
            default: None,
            keep: None,
            script: None,
        },
    }
}

// "Fields are tested left to right."
pub fn read(file: &[u8]) -> Result<Layout, Refusal>
    ensures { result ≡ file_read file.now }
{
    let mut progress = nothing_read();
    let differing = apart(file, HEAD_BYTES as u8);
    // Kept: a turn goes on behind a field, which says itself how long it is.
    while progress.at < file.len() {
        let at = progress.at;
        progress = next_field(file, progress, differing).map_err(|why| Refusal { why, at })?;
    }
    ended(progress)
}

// 12: "judge called, no script in the file", at the file's length; the rest as read.
pub fn read_to_judge(file: &[u8]) -> Result<Layout, Refusal>
    ensures { result ≡ shown (read_to_judge file.now) }
{
    let layout = read(file)?;
    if layout.script.is_none() {
        return Err(Refusal {
            why: Why::NoScript,
            at: file.len(),
        });
    }
    Ok(layout)
}
