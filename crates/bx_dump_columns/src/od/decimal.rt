//! Numbers in decimal digits, several at a time.
ghost use Rattle.std.specs.Prelude.{◌≡◌, false, ℕ, ◌+◌, ◌-◌, ◌*◌, ◌^◌, ◌<◌, ◌≤◌, [], ◌∷◌, ◌++◌, length, if◌then◌else◌};
ghost use Rattle.std.specs.Fmt.{digits};
ghost use Rattle.bx_text.specs.Field.{left_filled};

use crate::od::decimal_lanes::put_sixteen;

/// Each number below 100 in two digits.
#[rattlefmt::skip]
static TWO: [[u8; 2]; 100] = [
    *b"00", *b"01", *b"02", *b"03", *b"04", *b"05", *b"06", *b"07", *b"08", *b"09", *b"10", *b"11", *b"12", *b"13", *b"14", *b"15",
    *b"16", *b"17", *b"18", *b"19", *b"20", *b"21", *b"22", *b"23", *b"24", *b"25", *b"26", *b"27", *b"28", *b"29", *b"30", *b"31",
    *b"32", *b"33", *b"34", *b"35", *b"36", *b"37", *b"38", *b"39", *b"40", *b"41", *b"42", *b"43", *b"44", *b"45", *b"46", *b"47",
    *b"48", *b"49", *b"50", *b"51", *b"52", *b"53", *b"54", *b"55", *b"56", *b"57", *b"58", *b"59", *b"60", *b"61", *b"62", *b"63",
    *b"64", *b"65", *b"66", *b"67", *b"68", *b"69", *b"70", *b"71", *b"72", *b"73", *b"74", *b"75", *b"76", *b"77", *b"78", *b"79",
    *b"80", *b"81", *b"82", *b"83", *b"84", *b"85", *b"86", *b"87", *b"88", *b"89", *b"90", *b"91", *b"92", *b"93", *b"94", *b"95",
    *b"96", *b"97", *b"98", *b"99",
];

/// The same with a space in front of one digit.
#[rattlefmt::skip]
static LEADS: [[u8; 2]; 100] = [
    *b" 0", *b" 1", *b" 2", *b" 3", *b" 4", *b" 5", *b" 6", *b" 7", *b" 8", *b" 9", *b"10", *b"11", *b"12", *b"13", *b"14", *b"15",
    *b"16", *b"17", *b"18", *b"19", *b"20", *b"21", *b"22", *b"23", *b"24", *b"25", *b"26", *b"27", *b"28", *b"29", *b"30", *b"31",
    *b"32", *b"33", *b"34", *b"35", *b"36", *b"37", *b"38", *b"39", *b"40", *b"41", *b"42", *b"43", *b"44", *b"45", *b"46", *b"47",
    *b"48", *b"49", *b"50", *b"51", *b"52", *b"53", *b"54", *b"55", *b"56", *b"57", *b"58", *b"59", *b"60", *b"61", *b"62", *b"63",
    *b"64", *b"65", *b"66", *b"67", *b"68", *b"69", *b"70", *b"71", *b"72", *b"73", *b"74", *b"75", *b"76", *b"77", *b"78", *b"79",
    *b"80", *b"81", *b"82", *b"83", *b"84", *b"85", *b"86", *b"87", *b"88", *b"89", *b"90", *b"91", *b"92", *b"93", *b"94", *b"95",
    *b"96", *b"97", *b"98", *b"99",
];

/// Each number below 100 in three characters, and behind them each with a minus.
#[rattlefmt::skip]
static SIGNED_LEADS: [[u8; 3]; 200] = [
    *b"  0", *b"  1", *b"  2", *b"  3", *b"  4", *b"  5", *b"  6", *b"  7", *b"  8", *b"  9", *b" 10", *b" 11", *b" 12", *b" 13",
    *b" 14", *b" 15", *b" 16", *b" 17", *b" 18", *b" 19", *b" 20", *b" 21", *b" 22", *b" 23", *b" 24", *b" 25", *b" 26", *b" 27",
    *b" 28", *b" 29", *b" 30", *b" 31", *b" 32", *b" 33", *b" 34", *b" 35", *b" 36", *b" 37", *b" 38", *b" 39", *b" 40", *b" 41",
    *b" 42", *b" 43", *b" 44", *b" 45", *b" 46", *b" 47", *b" 48", *b" 49", *b" 50", *b" 51", *b" 52", *b" 53", *b" 54", *b" 55",
    *b" 56", *b" 57", *b" 58", *b" 59", *b" 60", *b" 61", *b" 62", *b" 63", *b" 64", *b" 65", *b" 66", *b" 67", *b" 68", *b" 69",
    *b" 70", *b" 71", *b" 72", *b" 73", *b" 74", *b" 75", *b" 76", *b" 77", *b" 78", *b" 79", *b" 80", *b" 81", *b" 82", *b" 83",
    *b" 84", *b" 85", *b" 86", *b" 87", *b" 88", *b" 89", *b" 90", *b" 91", *b" 92", *b" 93", *b" 94", *b" 95", *b" 96", *b" 97",
    *b" 98", *b" 99", *b" -0", *b" -1", *b" -2", *b" -3", *b" -4", *b" -5", *b" -6", *b" -7", *b" -8", *b" -9", *b"-10", *b"-11",
    *b"-12", *b"-13", *b"-14", *b"-15", *b"-16", *b"-17", *b"-18", *b"-19", *b"-20", *b"-21", *b"-22", *b"-23", *b"-24", *b"-25",
    *b"-26", *b"-27", *b"-28", *b"-29", *b"-30", *b"-31", *b"-32", *b"-33", *b"-34", *b"-35", *b"-36", *b"-37", *b"-38", *b"-39",
    *b"-40", *b"-41", *b"-42", *b"-43", *b"-44", *b"-45", *b"-46", *b"-47", *b"-48", *b"-49", *b"-50", *b"-51", *b"-52", *b"-53",
    *b"-54", *b"-55", *b"-56", *b"-57", *b"-58", *b"-59", *b"-60", *b"-61", *b"-62", *b"-63", *b"-64", *b"-65", *b"-66", *b"-67",
    *b"-68", *b"-69", *b"-70", *b"-71", *b"-72", *b"-73", *b"-74", *b"-75", *b"-76", *b"-77", *b"-78", *b"-79", *b"-80", *b"-81",
    *b"-82", *b"-83", *b"-84", *b"-85", *b"-86", *b"-87", *b"-88", *b"-89", *b"-90", *b"-91", *b"-92", *b"-93", *b"-94", *b"-95",
    *b"-96", *b"-97", *b"-98", *b"-99",
];

/// A number below 100 in two digits.
#[inline(always)]
fn two_of(v: u32) -> [u8; 2]
    requires { v < 100 }
    ensures { result ≡ left_filled 48 2 (digits 10 false v) }
{
    TWO[v as usize]
}

/// A number below 100 in two characters.
#[inline(always)]
fn lead_of(v: u32) -> [u8; 2]
    requires { v < 100 }
    ensures { result ≡ left_filled 32 2 (digits 10 false v) }
{
    LEADS[v as usize]
}

/// A number below 100 in three characters, with its sign.
#[inline(always)]
fn signed_lead_of(negative: bool, v: u32) -> [u8; 3]
    requires { v < 100 }
    ensures { result ≡ left_filled 32 3 ((if negative then 45 ∷ [] else []) ++ digits 10 false v) }
{
    let at = if negative { 100 + v } else { v };
    SIGNED_LEADS[at as usize]
}

/// Puts a number in two digits.
#[inline(always)]
fn put_two(field: &mut [u8], v: u32)
    requires room { length field.old ≡ 2 }
    requires small { v < 100 }
    ensures { field.new ≡ left_filled 48 2 (digits 10 false v) }
{
    field.copy_from_slice(&two_of(v));
}

/// Puts a number in four digits.
#[inline(always)]
fn put_four(field: &mut [u8], v: u32)
    requires room { length field.old ≡ 4 }
    requires small { v < 10 ^ 4 }
    ensures { field.new ≡ left_filled 48 4 (digits 10 false v) }
{
    let (front, back) = field.split_at_mut(2);
    put_two(front, v / 100);
    put_two(back, v % 100);
}

/// Puts a number in six digits.
#[inline(always)]
fn put_six(field: &mut [u8], v: u32)
    requires room { length field.old ≡ 6 }
    requires small { v < 10 ^ 6 }
    ensures { field.new ≡ left_filled 48 6 (digits 10 false v) }
{
    let (front, back) = field.split_at_mut(2);
    put_two(front, v / 10000);
    put_four(back, v % 10000);
}

/// Puts a number in eight digits.
#[inline(always)]
pub fn put_eight(field: &mut [u8], v: u32)
    requires room { length field.old ≡ 8 }
    requires small { v < 10 ^ 8 }
    ensures { field.new ≡ left_filled 48 8 (digits 10 false v) }
{
    let (front, back) = field.split_at_mut(4);
    put_four(front, v / 10000);
    put_four(back, v % 10000);
}

/// Puts a number in three digits.
#[inline(always)]
pub fn put_three(field: &mut [u8], v: u32)
    requires room { length field.old ≡ 3 }
    requires small { v < 10 ^ 3 }
    ensures { field.new ≡ left_filled 48 3 (digits 10 false v) }
{
    let (front, back) = field.split_at_mut(1);
    front.copy_from_slice(&[b'0' + (v / 100) as u8]);
    put_two(back, v % 100);
}

/// Puts a number below 100 in two characters.
#[inline(always)]
pub fn put_lead(field: &mut [u8], v: u32)
    requires room { length field.old ≡ 2 }
    requires small { v < 100 }
    ensures { field.new ≡ left_filled 32 2 (digits 10 false v) }
{
    field.copy_from_slice(&lead_of(v));
}

/// Puts a number below 100 and its sign in three characters.
#[inline(always)]
pub fn put_signed_lead(field: &mut [u8], negative: bool, v: u32)
    requires room { length field.old ≡ 3 }
    requires small { v < 100 }
    ensures { field.new ≡ left_filled 32 3 ((if negative then 45 ∷ [] else []) ++ digits 10 false v) }
{
    field.copy_from_slice(&signed_lead_of(negative, v));
}

/// Puts a number below 10,000 in four characters.
#[inline(always)]
pub fn put_top(field: &mut [u8], v: u32)
    requires room { length field.old ≡ 4 }
    requires small { v < 10 ^ 4 }
    ensures { field.new ≡ left_filled 32 4 (digits 10 false v) }
{
    let (front, back) = field.split_at_mut(2);
    if v < 100 {
        front.copy_from_slice(b"  ");
        put_lead(back, v);
    } else {
        put_lead(front, v / 100);
        put_two(back, v % 100);
    }
}

/// Puts a digit.
#[inline(always)]
fn put_one(field: &mut [u8], v: u32)
    requires room { length field.old ≡ 1 }
    requires small { v < 10 }
    ensures { field.new ≡ left_filled 48 1 (digits 10 false v) }
{
    field.copy_from_slice(&[b'0' + v as u8]);
}

/// Puts a number of two or three digits and its sign in four characters.
#[inline(always)]
fn put_signed_top(field: &mut [u8], negative: bool, v: u32)
    requires room { length field.old ≡ 4 }
    requires least { 10 ≤ v }
    requires small { v < 10 ^ 3 }
    ensures { field.new ≡ left_filled 32 4 ((if negative then 45 ∷ [] else []) ++ digits 10 false v) }
{
    let (front, back) = field.split_at_mut(3);
    put_signed_lead(front, negative, v / 10);
    put_one(back, v % 10);
}

/// Puts a number of at least 1,000 and its sign in six characters.
#[inline(always)]
pub fn put_signed_two(field: &mut [u8], negative: bool, v: u32)
    requires room { length field.old ≡ 6 }
    requires least { 10 ^ 3 ≤ v }
    requires small { v < 10 ^ 5 }
    ensures { field.new ≡ left_filled 32 6 ((if negative then 45 ∷ [] else []) ++ digits 10 false v) }
{
    let (front, back) = field.split_at_mut(3);
    put_signed_lead(front, negative, v / 1000);
    put_three(back, v % 1000);
}

/// Puts a number of at least 100,000,000 and its sign in eleven characters.
#[inline(always)]
pub fn put_signed_four(field: &mut [u8], negative: bool, v: u32)
    requires room { length field.old ≡ 11 }
    requires least { 10 ^ 8 ≤ v }
    ensures { field.new ≡ left_filled 32 11 ((if negative then 45 ∷ [] else []) ++ digits 10 false v) }
{
    let (front, back) = field.split_at_mut(3);
    put_signed_lead(front, negative, v / 100000000);
    put_eight(back, v % 100000000);
}

/// Puts a number of seven or eight digits and its sign in eleven characters.
#[inline(always)]
pub fn put_signed_seven(field: &mut [u8], negative: bool, v: u32)
    requires room { length field.old ≡ 11 }
    requires least { 10 ^ 6 ≤ v }
    requires small { v < 10 ^ 8 }
    ensures { field.new ≡ left_filled 32 11 ((if negative then 45 ∷ [] else []) ++ digits 10 false v) }
{
    let (front, back) = field.split_at_mut(5);
    let (spaces, lead) = front.split_at_mut(2);
    spaces.copy_from_slice(b"  ");
    put_signed_lead(lead, negative, v / 1000000);
    put_six(back, v % 1000000);
}

/// Puts a number of at least 100,000,000,000,000,000 and its sign in twenty characters.
#[inline(always)]
pub fn put_signed_eight(field: &mut [u8], negative: bool, v: u64)
    requires room { length field.old ≡ 20 }
    requires least { 10 ^ 17 ≤ v }
    requires small { v < 10 ^ 19 }
    ensures { field.new ≡ left_filled 32 20 ((if negative then 45 ∷ [] else []) ++ digits 10 false v) }
{
    let (front, back) = field.split_at_mut(4);
    put_signed_top(front, negative, (v / 10000000000000000) as u32);
    put_sixteen(back, v % 10000000000000000);
}

/// Puts a number of at least 1,000 in five characters.
#[inline(always)]
pub fn put_unsigned_two(field: &mut [u8], v: u32)
    requires room { length field.old ≡ 5 }
    requires least { 10 ^ 3 ≤ v }
    requires small { v < 10 ^ 5 }
    ensures { field.new ≡ left_filled 32 5 (digits 10 false v) }
{
    let (front, back) = field.split_at_mut(2);
    put_lead(front, v / 1000);
    put_three(back, v % 1000);
}

/// Puts a number of at least 100,000,000 in ten characters.
#[inline(always)]
pub fn put_unsigned_four(field: &mut [u8], v: u32)
    requires room { length field.old ≡ 10 }
    requires least { 10 ^ 8 ≤ v }
    ensures { field.new ≡ left_filled 32 10 (digits 10 false v) }
{
    let (front, back) = field.split_at_mut(2);
    put_lead(front, v / 100000000);
    put_eight(back, v % 100000000);
}

/// Puts a number of seven or eight digits in ten characters.
#[inline(always)]
pub fn put_unsigned_seven(field: &mut [u8], v: u32)
    requires room { length field.old ≡ 10 }
    requires least { 10 ^ 6 ≤ v }
    requires small { v < 10 ^ 8 }
    ensures { field.new ≡ left_filled 32 10 (digits 10 false v) }
{
    let (front, back) = field.split_at_mut(4);
    let (spaces, lead) = front.split_at_mut(2);
    spaces.copy_from_slice(b"  ");
    put_lead(lead, v / 1000000);
    put_six(back, v % 1000000);
}

/// Puts a number of at least 10,000,000,000,000,000 in twenty characters.
#[inline(always)]
pub fn put_unsigned_eight(field: &mut [u8], v: u64)
    requires room { length field.old ≡ 20 }
    requires least { 10 ^ 16 ≤ v }
    ensures { field.new ≡ left_filled 32 20 (digits 10 false v) }
{
    let (front, back) = field.split_at_mut(4);
    put_top(front, (v / 10000000000000000) as u32);
    put_sixteen(back, v % 10000000000000000);
}
