// What the program `division` makes of a division file: a row for each year of one state and division, or where and
// why the reading stopped.
//
// Document 02, E1: "We take on stations with a century of rain already published in the nClimDiv fixed-width layout".
// What the program makes of an input is `division_of`, ByLines of the crate `division_session`, said of whole lines; here it is
// said byte by byte, for an input that comes in pieces, and `by_lines`, of the crate `division_laws`, says that this is
// the same. Everything here is for the program, which lends room for the rows.
#![tactic(auto)]

ghost use Rattle.std.specs.Prelude.{◌≡◌};
ghost use mathlib.Core.List.{foldl};
ghost use Rattle.kept_line.specs.Kept.{until_feed};
ghost use Rattle.division_session.specs.Session.{seen, Held, closed};
ghost use Rattle.division_input.specs.Input.{state_of, byte_fed, ended, input_ended};
ghost use Rattle.division_input.specs.Arguments.{named_of};

use division_session::Session;

// A state or a division as a person writes it: one or two digits.
#[tactic(auto, unfolding(crate::specs::Arguments::named_of))]
pub fn named(part: &[u8]) -> Option<u32>
    ensures { result ≡ named_of part.now }
{
    match part.len() {
        1..=2 => fields::number_of(part),
        _ => None,
    }
}

// ---- the input

// A part of a line, with the line feed that ends it or without.
fn take_line(session: &mut Session, part: &[u8], ends: bool, out: &mut [u8])
    requires held { Held (seen session.old) session.old.kept.line out.old }
    requires part_value { until_feed part.now ≡ part.now }
    ensures { state_of session.new out.new ≡ foldl byte_fed (state_of session.old out.old) (ended ends part.now) }
{
    if session.refused.is_some() {
        return;
    }
    session.kept.keep_part(part);
    if ends {
        session.close_line(out);
    }
}

// A piece of the input more. Whatever was lent is lent again.
// By lines and not by bytes: no `for` counts that, and a line's end is found by `memchr`.
pub fn take(session: &mut Session, piece: &[u8], out: &mut [u8])
    requires { Held (seen session.old) session.old.kept.line out.old }
    ensures out_after { state_of session.new out.new ≡ foldl byte_fed (state_of session.old out.old) piece.now }
    ensures held { Held (seen session.new) session.new.kept.line out.new }
{
    let mut start = 0;
    while start < piece.len() {
        let end = kept_line::line_end(piece, start);
        take_line(session, &piece[start..end], end < piece.len(), out);
        start = end + 1;
    }
}

// The input ends.
pub fn finish(session: &mut Session, out: &mut [u8])
    requires { Held (seen session.old) session.old.kept.line out.old }
    ensures out_after { closed (seen session.new) out.new ≡ input_ended (seen session.old) session.old.kept.line out.old }
    ensures held { Held (seen session.new) session.new.kept.line out.new }
    ensures line { session.new.kept.line ≡ session.old.kept.line }
{
    session.close_last(out);
    session.none_found();
}
