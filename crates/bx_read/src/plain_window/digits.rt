//! The digits of plain hexadecimal that comes in windows.
ghost use Rattle.std.specs.Prelude.{◌≡◌, ◌+◌, ◌^◌, ◌<◌, ◌≤◌, ◌++◌, ◌∷◌, [], ℕ, List, length, take, IsTrue, None, Ok, MatchResult, IfSome};
ghost use Rattle.std.proofs.Props.{props};
ghost use Rattle.bx_read.specs.Digits.{is_hex};
ghost use Rattle.bx_read.specs.Plain.{is_space, plain_answer};

use crate::digits::{is_digit, is_space, pair, put_pairs};
use crate::fault::ReadFault;
use std::alloc::Allocator;

/// How many bytes are read at a time: more than a line of `xxd -p` has.
const RUN: usize = 64;

/// What was read so far.
#[derive(Drop)]
pub struct DigitsRead<A: Allocator> {
    pub bytes: Vec<u8, A>,
    /// A digit whose second one is still to come.
    pub half: Option<u8>,
    /// How many newlines were passed.
    pub passed: u64,
    /// The line of the last digit.
    pub last: u64,
    /// What stopped the reading.
    pub fault: Option<ReadFault>,
    ghost digit: { IfSome half (λ d. IsTrue (is_hex d)) } by { Prim.hlevel props },
}

impl<A: Allocator> DigitsRead<A> {
    ghost use Rattle.bx_read.specs.PlainWindow.{HasReadPlain, IsPlainFault};
    ghost use Rattle.bx_read.specs.private.PlainWindow.{plain_view};

    /// Nothing was read yet, and what will be is put here.
    pub fn begin(bytes: Vec<u8, A>) -> DigitsRead<A>
        requires empty { bytes.items ≡ [] }
        ensures read { HasReadPlain [] (plain_view result) }
        ensures count { result.passed ≡ 0 }
    {
        DigitsRead {
            bytes,
            half: None,
            passed: 0,
            last: 1,
            fault: None,
        }
    }

    /// Reads the next window of the text. After a fault, a byte that doesn't belong, nothing more is read.
    pub fn read_window(&mut self, window: &[u8])
        requires countable { self.old.passed + length window.now < 2 ^ 64 }
        ensures read { (text : List ℕ) → HasReadPlain text (plain_view self.old) → HasReadPlain (text ++ window.now) (plain_view self.new) }
        // No more newlines are passed than bytes.
        ensures count { self.new.passed ≤ self.old.passed + length window.now }
    {
        let mut at = 0;
        while at < window.len() {
            at += self.take_front(&window[at..]);
        }
    }

    /// The bytes of the text that was given: what `read_plain` answers of it as one text.
    pub fn finish(self) -> Result<Vec<u8, A>, ReadFault>
        ensures exact { (text : List ℕ) → HasReadPlain text (plain_view self) → MatchResult result (λ v. plain_answer text ≡ Ok v.items) (IsPlainFault text) }
    {
        if let Some(fault) = self.fault {
            return Err(fault);
        }
        if self.half.is_some() {
            return Err(ReadFault::OddDigits { line: self.last });
        }
        let DigitsRead { bytes, .. } = self;
        Ok(bytes)
    }

    /// Reads the pairs of digits that a text begins with and the byte behind them, and answers how long they are.
    #[inline]
    fn take_front(&mut self, text: &[u8]) -> usize
        requires countable { self.old.passed + length text.now < 2 ^ 64 }
        requires some { 0 < length text.now }
        ensures within { result ≤ length text.now }
        ensures some { 0 < result }
        ensures read { (before : List ℕ) → HasReadPlain before (plain_view self.old) → HasReadPlain (before ++ take result text.now) (plain_view self.new) }
        ensures count { self.new.passed ≤ self.old.passed + result }
    {
        let pairs = self.take_pairs(text);
        if pairs == text.len() {
            return pairs;
        }
        self.take_byte(text[pairs]);
        pairs + 1
    }

    /// Reads the pairs of digits that a text begins with, as many as are read at a time, and answers how long they are: 0 where a
    /// fault is known, or half a pair.
    #[inline]
    fn take_pairs(&mut self, text: &[u8]) -> usize
        requires countable { self.old.passed + length text.now < 2 ^ 64 }
        ensures within { result ≤ length text.now }
        ensures read { (before : List ℕ) → HasReadPlain before (plain_view self.old) → HasReadPlain (before ++ take result text.now) (plain_view self.new) }
        ensures count { self.new.passed ≡ self.old.passed }
    {
        if self.fault.is_some() {
            return 0;
        }
        if self.half.is_some() {
            return 0;
        }
        let mut bytes = [0u8; RUN];
        let count = put_pairs(text, &mut bytes);
        if count == 0 {
            return 0;
        }
        self.last = self.passed + 1;
        match self.bytes.extend_from_slice(&bytes[..count]) {
            Ok(()) => 2 * count,
            Err(_) => {
                self.fault = Some(ReadFault::NoMemory);
                2 * count
            }
        }
    }

    /// Reads a byte.
    #[inline]
    fn take_byte(&mut self, byte: u8)
        requires countable { self.old.passed + 1 < 2 ^ 64 }
        ensures read { (text : List ℕ) → HasReadPlain text (plain_view self.old) → HasReadPlain (text ++ byte ∷ []) (plain_view self.new) }
        ensures count { self.new.passed ≤ self.old.passed + 1 }
    {
        if self.fault.is_some() {
            return;
        }
        if is_digit(byte) {
            self.take_digit(byte);
            return;
        }
        if !is_space(byte) {
            self.fault = Some(ReadFault::BadPair {
                line: self.passed + 1,
            });
            return;
        }
        if byte == b'\n' {
            self.passed += 1;
        }
    }

    /// Reads a digit, where no fault is known.
    #[inline]
    fn take_digit(&mut self, digit: u8)
        requires countable { self.old.passed + 1 < 2 ^ 64 }
        requires digit { IsTrue (is_hex digit) }
        requires sound { self.old.fault ≡ None }
        ensures read { (text : List ℕ) → HasReadPlain text (plain_view self.old) → HasReadPlain (text ++ digit ∷ []) (plain_view self.new) }
        ensures count { self.new.passed ≡ self.old.passed }
    {
        self.last = self.passed + 1;
        match self.half {
            None => self.half = Some(digit),
            Some(high) => {
                self.half = None;
                match self.bytes.push(pair(high, digit)) {
                    Ok(()) => {}
                    Err(_) => self.fault = Some(ReadFault::NoMemory),
                }
            }
        }
    }
}
