ghost use Rattle.std.specs.Prelude.{◌≡◌, ◌<◌, ◌/◌, ◌%◌};
ghost use Rattle.ring_change.specs.Checks.{check_after, check_byte, check_mark, first_check, hex_digit};

use std::marker::Model;

/// The effect of the low half of a byte on a check, for the polynomial 0xedb88320.
const LOW: [u32; 16] = [
    0,
    0x7707_3096,
    0xee0e_612c,
    0x9909_51ba,
    0x076d_c419,
    0x706a_f48f,
    0xe963_a535,
    0x9e64_95a3,
    0x0edb_8832,
    0x79dc_b8a4,
    0xe0d5_e91e,
    0x97d2_d988,
    0x09b6_4c2b,
    0x7eb1_7cbd,
    0xe7b8_2d07,
    0x90bf_1d91,
];

/// The effect of the high half of a byte.
const HIGH: [u32; 16] = [
    0,
    0x1db7_1064,
    0x3b6e_20c8,
    0x26d9_30ac,
    0x76dc_4190,
    0x6b6b_51f4,
    0x4db2_6158,
    0x5005_713c,
    0xedb8_8320,
    0xf00f_9344,
    0xd6d6_a3e8,
    0xcb61_b38c,
    0x9b64_c2b0,
    0x86d3_d2d4,
    0xa00a_e278,
    0xbdbd_f21c,
];

/// A running check of the changes of a journal: the CRC-32 of zip files over all their bytes.
///
/// Contracts see it as its 32 bits before the last inversion. No theorem rests on its value.
#[derive(Clone, Copy)]
pub struct Check {
    rest: u32,
}

impl Model for Check {
    ghost use Rattle.std.specs.Prelude.{ℕ};

    ghost Value = { ℕ };

    ghost view = { λ a. a.rest };

    ghost inverse = { λ rest. record { rest = rest } };
}

impl Check {
    /// Returns the check of no changes.
    pub fn new() -> Check
        ensures { result ≡ first_check }
    {
        Check { rest: u32::MAX }
    }

    /// Returns the check of the bytes so far and then these.
    pub fn after(self, bytes: &[u8]) -> Check
        ensures { result ≡ check_after self bytes.now }
    {
        let mut rest = self.rest;
        for byte in bytes {
            rest = with_byte(rest, *byte);
        }
        Check { rest }
    }

    /// Returns the mark at the end of a line: ` #` and the eight lowercase hexadecimal digits of
    /// the check.
    pub fn mark(self) -> [u8; 10]
        ensures { result ≡ check_mark self }
    {
        let word = u32::MAX - self.rest;
        [
            b' ',
            b'#',
            digit(word / 0x1000_0000),
            digit(word / 0x100_0000 % 16),
            digit(word / 0x10_0000 % 16),
            digit(word / 0x1_0000 % 16),
            digit(word / 0x1000 % 16),
            digit(word / 0x100 % 16),
            digit(word / 0x10 % 16),
            digit(word % 16),
        ]
    }
}

// The two halves are looked up at once: one look-up need not wait for the other.
#[inline(always)]
fn with_byte(rest: u32, byte: u8) -> u32
    ensures { result ≡ check_byte rest byte }
{
    let mixed = rest ^ u32::from(byte);
    mixed / 256 ^ LOW[(mixed % 16) as usize] ^ HIGH[(mixed / 16 % 16) as usize]
}

// The lowercase hexadecimal digit of a number below 16.
#[inline(always)]
fn digit(number: u32) -> u8
    requires { number < 16 }
    ensures { result ≡ hex_digit number }
{
    if number < 10 {
        b'0' + number as u8
    } else {
        b'a' + (number - 10) as u8
    }
}
