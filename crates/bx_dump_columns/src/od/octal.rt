//! Numbers in octal digits, two at a time.
ghost use Rattle.std.specs.Prelude.{◌≡◌, false, ◌^◌, ◌<◌, length};
ghost use Rattle.std.specs.Fmt.{digits};
ghost use Rattle.bx_text.specs.Field.{left_filled};

/// Each number below 64 in two octal digits.
#[rattlefmt::skip]
static PAIRS: [[u8; 2]; 64] = [
    *b"00", *b"01", *b"02", *b"03", *b"04", *b"05", *b"06", *b"07", *b"10", *b"11", *b"12", *b"13", *b"14", *b"15", *b"16", *b"17",
    *b"20", *b"21", *b"22", *b"23", *b"24", *b"25", *b"26", *b"27", *b"30", *b"31", *b"32", *b"33", *b"34", *b"35", *b"36", *b"37",
    *b"40", *b"41", *b"42", *b"43", *b"44", *b"45", *b"46", *b"47", *b"50", *b"51", *b"52", *b"53", *b"54", *b"55", *b"56", *b"57",
    *b"60", *b"61", *b"62", *b"63", *b"64", *b"65", *b"66", *b"67", *b"70", *b"71", *b"72", *b"73", *b"74", *b"75", *b"76", *b"77",
];

/// A number below 64 in two digits.
#[inline(always)]
fn pair_of(v: u32) -> [u8; 2]
    requires { v < 64 }
    ensures { result ≡ left_filled 48 2 (digits 8 false v) }
{
    PAIRS[v as usize]
}

/// Puts a number in two digits.
#[inline(always)]
fn put_pair(field: &mut [u8], v: u32)
    requires room { length field.old ≡ 2 }
    requires small { v < 8 ^ 2 }
    ensures { field.new ≡ left_filled 48 2 (digits 8 false v) }
{
    field.copy_from_slice(&pair_of(v));
}

/// Puts a number in four digits.
#[inline(always)]
fn put_four(field: &mut [u8], v: u32)
    requires room { length field.old ≡ 4 }
    requires small { v < 8 ^ 4 }
    ensures { field.new ≡ left_filled 48 4 (digits 8 false v) }
{
    let (front, back) = field.split_at_mut(2);
    put_pair(front, v / 64);
    put_pair(back, v % 64);
}

/// Puts a number in six digits.
#[inline(always)]
pub fn put_six(field: &mut [u8], v: u32)
    requires room { length field.old ≡ 6 }
    requires small { v < 8 ^ 6 }
    ensures { field.new ≡ left_filled 48 6 (digits 8 false v) }
{
    let (front, back) = field.split_at_mut(4);
    put_four(front, v / 64);
    put_pair(back, v % 64);
}

/// Puts a number in one digit.
#[inline(always)]
fn put_one(field: &mut [u8], v: u32)
    requires room { length field.old ≡ 1 }
    requires small { v < 8 }
    ensures { field.new ≡ left_filled 48 1 (digits 8 false v) }
{
    field.copy_from_slice(&[b'0' + v as u8]);
}

/// Puts a number in three digits.
#[inline(always)]
pub fn put_three(field: &mut [u8], v: u32)
    requires room { length field.old ≡ 3 }
    requires small { v < 8 ^ 3 }
    ensures { field.new ≡ left_filled 48 3 (digits 8 false v) }
{
    let (front, back) = field.split_at_mut(1);
    put_one(front, v / 64);
    put_pair(back, v % 64);
}

/// Puts a number in seven digits.
#[inline(always)]
pub fn put_seven(field: &mut [u8], v: u32)
    requires room { length field.old ≡ 7 }
    requires small { v < 8 ^ 7 }
    ensures { field.new ≡ left_filled 48 7 (digits 8 false v) }
{
    let (front, back) = field.split_at_mut(1);
    put_one(front, v / 262144);
    put_six(back, v % 262144);
}

/// Puts a number in eight digits.
#[inline(always)]
pub fn put_eight(field: &mut [u8], v: u32)
    requires room { length field.old ≡ 8 }
    requires small { v < 8 ^ 8 }
    ensures { field.new ≡ left_filled 48 8 (digits 8 false v) }
{
    let (front, back) = field.split_at_mut(2);
    put_pair(front, v / 262144);
    put_six(back, v % 262144);
}

/// Puts a number in nine digits.
#[inline(always)]
pub fn put_nine(field: &mut [u8], v: u32)
    requires room { length field.old ≡ 9 }
    requires small { v < 8 ^ 9 }
    ensures { field.new ≡ left_filled 48 9 (digits 8 false v) }
{
    let (front, back) = field.split_at_mut(1);
    put_one(front, v / 16777216);
    put_eight(back, v % 16777216);
}

/// Puts a number in eleven digits.
#[inline(always)]
pub fn put_eleven(field: &mut [u8], v: u32)
    requires room { length field.old ≡ 11 }
    ensures { field.new ≡ left_filled 48 11 (digits 8 false v) }
{
    let (front, back) = field.split_at_mut(3);
    put_three(front, v / 16777216);
    put_eight(back, v % 16777216);
}

/// Puts a number in sixteen digits.
#[inline(always)]
fn put_sixteen(field: &mut [u8], v: u64)
    requires room { length field.old ≡ 16 }
    requires small { v < 8 ^ 16 }
    ensures { field.new ≡ left_filled 48 16 (digits 8 false v) }
{
    let (front, back) = field.split_at_mut(8);
    put_eight(front, (v / 16777216) as u32);
    put_eight(back, (v % 16777216) as u32);
}

/// Puts a number in twenty-two digits.
#[inline(always)]
pub fn put_twenty_two(field: &mut [u8], v: u64)
    requires room { length field.old ≡ 22 }
    ensures { field.new ≡ left_filled 48 22 (digits 8 false v) }
{
    let (front, back) = field.split_at_mut(6);
    put_six(front, (v / 281474976710656) as u32);
    put_sixteen(back, v % 281474976710656);
}
