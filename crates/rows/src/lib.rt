// What the printing program prints: a month's row, as month number, X1, X2, X3, percent, index, S or O, or the one
// line of a refusal. And what the program `division` prints: a year's row, as year, twelve amounts or a dash, months
// present.
//
// `lay_out` and `lay_refusal` are for the printing program and `lay_year` for `division`; each lends room enough.
#![tactic(auto)]

ghost use Rattle.std.specs.Prelude.{◌≡◌, ℕ, ◌+◌, ◌*◌, ◌≤◌, List, [], ◌∷◌, length};
ghost use Rattle.outline.specs.Numbers.{last_month};
ghost use Rattle.text.specs.Bytes.{space};
ghost use Rattle.rows.specs.Text.{numeral, integer, letter, row_text, refused_text, month_text, months_text, year_text};
ghost use Rattle.rows.specs.Room.{laid, most_row, most_year};

// A month's row.
#[derive(Clone, Copy, Debug)]
pub struct Row {
    // Counted from 1.
    pub month: u32,
    pub x1: i32,
    pub x2: i32,
    pub x3: i32,
    pub percent: u32,
    pub index: i32,
    // 1 open, 2 settled: the byte that the column of marks holds, which C reads.
    pub mark: u8,
}

// The bytes that a month's row, or the line of a refusal, needs at most.
pub const MOST_ROW: usize = 72;

const SETTLED: u8 = 2;

// Room for a text. Its `ensures` gives only the length, which lending it needs: a caller that knows that it is zeros would
// write out a list of so many.
pub fn make_room<const N: usize>() -> [u8; N]
    ensures { N ≡ length result }
{
    [0; N]
}

// The bit of a month that is present.
const PRESENT: u32 = 1;

// Each function here puts something into a list at a place, and answers where it ends. Place and list stay two parameters: one
// struct of both holds a `&mut`, and each contract then names the borrow besides the list.

// Puts one byte.
fn put_byte(b: u8, at: usize, out: &mut [u8]) -> usize
    requires { at + 1 ≤ length out.old }
    ensures value { result ≡ at + 1 }
    ensures out_after { out.new ≡ laid (b ∷ []) at out.old }
{
    out[at] = b;
    at + 1
}

// Puts a text.
fn put_text(text: &[u8], at: usize, out: &mut [u8]) -> usize
    requires { at + length text.now ≤ length out.old }
    ensures value { result ≡ at + length text.now }
    ensures out_after { out.new ≡ laid text.now at out.old }
{
    let end = at + text.len();
    out[at..end].copy_from_slice(text);
    end
}

// A number that is put in decimal.
trait Decimal {
    // Its digits, with a sign where it has one, and how many bytes they are at most.
    ghost text: { Self → List ℕ };

    ghost most: { ℕ };

    fn put(self, at: usize, out: &mut [u8]) -> usize
        requires { at + most ≤ length out.old }
        ensures value { result ≡ at + length (text self) }
        ensures out_after { out.new ≡ laid (text self) at out.old }
        ensures upper_bound { result ≤ at + most };
}

// Puts the decimal digits of n.
fn put_natural(n: u32, at: usize, out: &mut [u8]) -> usize
    requires { at + length (numeral n) ≤ length out.old }
    ensures value { result ≡ at + length (numeral n) }
    ensures out_after { out.new ≡ laid (numeral n) at out.old }
{
    let digit = b'0' + (n % 10) as u8;
    if n < 10 {
        return put_byte(digit, at, out);
    }
    let end = put_natural(n / 10, at, out);
    put_byte(digit, end, out)
}

impl Decimal for u32 {
    ghost text = { numeral };

    ghost most = { 10 };

    fn put(self, at: usize, out: &mut [u8]) -> usize {
        put_natural(self, at, out)
    }
}

impl Decimal for i32 {
    ghost text = { integer };

    ghost most = { 11 };

    fn put(self, at: usize, out: &mut [u8]) -> usize {
        let size = self.unsigned_abs();
        if self < 0 {
            let end = put_byte(b'-', at, out);
            return put_natural(size, end, out);
        }
        put_natural(size, at, out)
    }
}

// Puts a space and a number.
fn put_spaced<N: Decimal>(n: N, at: usize, out: &mut [u8]) -> usize
    requires { at + 1 + N.most ≤ length out.old }
    ensures value { result ≡ at + length (space ∷ N.text n) }
    ensures out_after { out.new ≡ laid (space ∷ N.text n) at out.old }
    ensures upper_bound { result ≤ at + 1 + N.most }
{
    let end = put_byte(b' ', at, out);
    n.put(end, out)
}

// S where the mark is settled, else O.
#[tactic(auto, unfolding(crate::specs::Text::letter))]
fn letter_of(mark: u8) -> u8
    ensures { result ≡ letter mark }
{
    if mark == SETTLED { b'S' } else { b'O' }
}

// Puts a row. For the printing program, which lends the room: a row
// has at most 72 bytes.
pub fn lay_out(row: Row, at: usize, out: &mut [u8]) -> usize
    requires { at + most_row ≤ length out.old }
    ensures value { result ≡ at + length (row_text row) }
    ensures upper_bound { result ≤ at + most_row }
    ensures out_after { out.new ≡ laid (row_text row) at out.old }
{
    let month_end = row.month.put(at, out);
    let x1_end = put_spaced(row.x1, month_end, out);
    let x2_end = put_spaced(row.x2, x1_end, out);
    let x3_end = put_spaced(row.x3, x2_end, out);
    let percent_end = put_spaced(row.percent, x3_end, out);
    let index_end = put_spaced(row.index, percent_end, out);
    put_text(&[b' ', letter_of(row.mark), b'\n'], index_end, out)
}

// Puts "refused", the line's number and the refusal's. For the printing program, which lends the room. The number may be any, one
// of no refusal too.
pub fn lay_refusal(line: u32, number: u8, at: usize, out: &mut [u8]) -> usize
    requires { at + most_row ≤ length out.old }
    ensures value { result ≡ at + length (refused_text line number) }
    ensures upper_bound { result ≤ at + most_row }
    ensures out_after { out.new ≡ laid (refused_text line number) at out.old }
{
    let word_end = put_text(b"refused", at, out);
    let line_end = put_spaced(line, word_end, out);
    let number_end = put_spaced(u32::from(number), line_end, out);
    put_byte(b'\n', number_end, out)
}

// Puts a space and a month's amount, or a dash where its bit, the set's lowest as in the definition, says that the month is missing.
#[tactic(auto, unfolding(crate::specs::Text::month_text))]
fn put_month(amount: u32, bit: u32, at: usize, out: &mut [u8]) -> usize
    requires { at + 11 ≤ length out.old }
    ensures value { result ≡ at + length (space ∷ month_text amount bit) }
    ensures out_after { out.new ≡ laid (space ∷ month_text amount bit) at out.old }
    ensures upper_bound { result ≤ at + 11 }
{
    if bit == PRESENT {
        return put_spaced(amount, at, out);
    }
    put_text(b" -", at, out)
}

// Puts each month's amount or its dash. The lowest bit of `present` is the first month's.
fn put_months(amounts: &[u32], present: u32, at: usize, out: &mut [u8]) -> usize
    requires { at + 11 * length amounts.now ≤ length out.old }
    ensures value { result ≡ at + length (months_text amounts.now present) }
    ensures out_after { out.new ≡ laid (months_text amounts.now present) at out.old }
    ensures upper_bound { result ≤ at + 11 * length amounts.now }
{
    let mut end = at;
    let mut left = present;
    for amount in amounts {
        end = put_month(*amount, left % 2, end, out);
        left /= 2;
    }
    end
}

// Puts a year's row. For the program `division`, which lends the room: twelve
// amounts make a row of at most 154 bytes.
pub fn lay_year(
    year: u32,
    amounts: &[u32],
    present: u32,
    count: u32,
    at: usize,
    out: &mut [u8],
) -> usize
    requires amounts_len { length amounts.now ≡ last_month }
    requires most_year_in_bounds { at + most_year ≤ length out.old }
    ensures value { result ≡ at + length (year_text year amounts.now present count) }
    ensures upper_bound { result ≤ at + most_year }
    ensures out_after { out.new ≡ laid (year_text year amounts.now present count) at out.old }
{
    let year_end = year.put(at, out);
    let months_end = put_months(amounts, present, year_end, out);
    let count_end = put_spaced(count, months_end, out);
    put_byte(b'\n', count_end, out)
}
