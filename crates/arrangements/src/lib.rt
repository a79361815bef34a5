// All small zones (request A.14): a line for each arrangement of a zone of 1 to 8 cells, in order.
#![tactic(auto)]

ghost use Rattle.std.specs.Prelude.{◌≡◌, IfSome, ◌++◌, ◌+◌, ◌≤◌, ◌<◌, length, take};
ghost use Rattle.std.proofs.lemmas.List.Edits.{sets};
ghost use Rattle.rules.specs.Words.{ascii};
ghost use Rattle.texts.specs.Adds.{Adds, held};
ghost use Rattle.arrangements.specs.Arrangements.{lengths};
ghost use Rattle.arrangements.specs.Listing.{asked, digit, extent_text, zones_listing};
ghost use Rattle.arrangements.specs.Lined.{Printed, Room, answered, extent, next_lines, rest_lines};

use texts::Text;

// The number that the byte `b` stands for: a digit 1 to 8.
#[tactic(auto, using(crate::proofs::Asking::digit_in, crate::proofs::Asking::digit_below, crate::proofs::Asking::digit_above))]
fn digit_value(b: u8) -> Option<usize>
    ensures value { answered result ≡ digit b }
    ensures most { IfSome result (λ n. n ≤ 8) }
{
    match b {
        b'1'..=b'8' => Some(usize::from(b - b'0')),
        _ => None,
    }
}

// The number of cells that `input` asks for: one digit 1 to 8 and a line feed.
#[tactic(auto, using(crate::proofs::Asking::asked_one, crate::proofs::Asking::asked_none))]
fn cells_asked(input: &[u8]) -> Option<usize>
    ensures value { answered result ≡ asked input.now }
    ensures most { IfSome result (λ n. n ≤ 8) }
{
    match input {
        [d, b'\n'] => digit_value(*d),
        _ => None,
    }
}

// A run of `cells` cells, free or an object, put behind `line`.
fn put_extent(line: &mut Text, free: bool, cells: usize)
    requires { (line.old.at + 20 < 4294967296) × (cells < 10) }
    ensures { Adds 11 line.old (extent_text (extent free cells)) line.new }
{
    if free {
        line.put_between(b" (free ", cells, b")")
    } else {
        line.put_between(b" (object ", cells, b")")
    }
}

// The lines that begin with `line` and go on with a run of the kind `free`, shorter ones first, where `left` cells are left.
#[cycle(put_kind_put_rest)]
fn put_kind(line: &mut Text, left: usize, free: bool, out: &mut Text)
    requires { Room line.old left out.old.at (next_lines (held line.old) left (lengths (extent free) 1 left)) }
    ensures { Printed line.old line.new out.old (next_lines (held line.old) left (lengths (extent free) 1 left)) out.new }
{
    let begun = line.length();
    // The number is the run's length in cells.
    for cells in 1..left + 1 {
        put_extent(line, free, cells);
        put_rest(line, left - cells, free, out);
        // The next run is put at the same place.
        line.truncate(begun);
    }
}

// The line that is `line` and its end.
fn put_line(line: &Text, out: &mut Text)
    requires { (line.now.at ≤ length line.now.out.now) × (out.old.at + line.now.at + 2 < 4294967296) }
    ensures { Adds (line.now.at + 2) out.old (held line.now ++ ascii ")\n") out.new }
{
    out.put_bytes(line.bytes());
    out.put_bytes(b")\n");
}

// The lines that begin with `line` and go on as each arrangement of `left` cells, `after` a free run or not.
#[cycle(put_kind_put_rest)]
fn put_rest(line: &mut Text, left: usize, after: bool, out: &mut Text)
    requires { Room line.old left out.old.at (rest_lines (held line.old) after left) }
    ensures { Printed line.old line.new out.old (rest_lines (held line.old) after left) out.new }
{
    if left == 0 {
        return put_line(line, out);
    }
    if !after {
        put_kind(line, left, true, out);
    }
    put_kind(line, left, false, out);
}

// The lines that `input` asks for, or the refusal.
fn put_zones(input: &[u8], out: &mut Text)
    requires { out.old.at ≡ 0 }
    ensures { Adds 99555 out.old (zones_listing input.now) out.new }
{
    let Some(cells) = cells_asked(input) else {
        return out.put_bytes(b"(refused 42)\n");
    };
    let mut bytes = [0u8; 93];
    let mut line = Text::new(&mut bytes);
    line.put_bytes(b"(zone");
    put_rest(&mut line, cells, false, out);
}

// What zonelist prints for `input`, stored from the front of `out` on as far as it has room; the text's length, at most 99,555.
#[tactic(auto, using(texts::proofs::Adds::put_whole))]
pub fn text(input: &[u8], out: &mut [u8]) -> usize
    ensures value { (result ≡ length (zones_listing input.now)) × (out.new ≡ sets out.old 0 (zones_listing input.now)) }
    ensures most { result ≤ 99555 }
{
    let mut text = Text::new(out);
    put_zones(input, &mut text);
    text.length()
}
