// SubBytes of single bytes: the table of FIPS 197, figure 7, that of the inverse by its formula, and their use.
#![tactic(auto)]

ghost use Rattle.std.specs.Prelude.{◌≡◌, get_or};
ghost use Rattle.field.specs.Rows.{four};
ghost use Rattle.field.specs.Field.{inverse};
ghost use Rattle.boxes.specs.Boxes as Boxes;
ghost use Rattle.boxes.specs.Boxes.{sub_byte, inv_sub_byte, Tabulates};

use std::array;

const SBOX: [u8; 256] = *b"\
    \x63\x7c\x77\x7b\xf2\x6b\x6f\xc5\x30\x01\x67\x2b\xfe\xd7\xab\x76\
    \xca\x82\xc9\x7d\xfa\x59\x47\xf0\xad\xd4\xa2\xaf\x9c\xa4\x72\xc0\
    \xb7\xfd\x93\x26\x36\x3f\xf7\xcc\x34\xa5\xe5\xf1\x71\xd8\x31\x15\
    \x04\xc7\x23\xc3\x18\x96\x05\x9a\x07\x12\x80\xe2\xeb\x27\xb2\x75\
    \x09\x83\x2c\x1a\x1b\x6e\x5a\xa0\x52\x3b\xd6\xb3\x29\xe3\x2f\x84\
    \x53\xd1\x00\xed\x20\xfc\xb1\x5b\x6a\xcb\xbe\x39\x4a\x4c\x58\xcf\
    \xd0\xef\xaa\xfb\x43\x4d\x33\x85\x45\xf9\x02\x7f\x50\x3c\x9f\xa8\
    \x51\xa3\x40\x8f\x92\x9d\x38\xf5\xbc\xb6\xda\x21\x10\xff\xf3\xd2\
    \xcd\x0c\x13\xec\x5f\x97\x44\x17\xc4\xa7\x7e\x3d\x64\x5d\x19\x73\
    \x60\x81\x4f\xdc\x22\x2a\x90\x88\x46\xee\xb8\x14\xde\x5e\x0b\xdb\
    \xe0\x32\x3a\x0a\x49\x06\x24\x5c\xc2\xd3\xac\x62\x91\x95\xe4\x79\
    \xe7\xc8\x37\x6d\x8d\xd5\x4e\xa9\x6c\x56\xf4\xea\x65\x7a\xae\x08\
    \xba\x78\x25\x2e\x1c\xa6\xb4\xc6\xe8\xdd\x74\x1f\x4b\xbd\x8b\x8a\
    \x70\x3e\xb5\x66\x48\x03\xf6\x0e\x61\x35\x57\xb9\x86\xc1\x1d\x9e\
    \xe1\xf8\x98\x11\x69\xd9\x8e\x94\x9b\x1e\x87\xe9\xce\x55\x28\xdf\
    \x8c\xa1\x89\x0d\xbf\xe6\x42\x68\x41\x99\x2d\x0f\xb0\x54\xbb\x16";

// The table of SubBytes. Held in a local and lent, since a constant is copied wherever it is named.
pub fn sbox() -> [u8; 256]
    ensures { Tabulates sub_byte result }
{
    SBOX
}

// The affine map undone: the byte turned left by 1, 3 and 6 places, and 05.
fn unaffine(b: u8) -> u8
    ensures { result ≡ Boxes.unaffine b }
{
    b.rotate_left(1) ^ b.rotate_left(3) ^ b.rotate_left(6) ^ 0x05
}

fn unaffine_table() -> [u8; 256]
    ensures { Tabulates Boxes.unaffine result }
{
    array::from_fn(|i| unaffine(i as u8))
}

// The inverses in the field. SubBytes of a byte is the affine map of its inverse, so with that map undone the S-box
// gives it.
fn inverse_table() -> [u8; 256]
    ensures { Tabulates inverse result }
{
    let sbox = sbox();
    array::from_fn(|i| unaffine(sbox[i]))
}

// The table of InvSubBytes, by its formula: the affine map undone, then the inverse. Each step is a loop of its own
// over all bytes, since the compiler then undoes the map for many of them at once.
pub fn inv_sbox() -> [u8; 256]
    ensures { Tabulates inv_sub_byte result }
{
    let inverses = inverse_table();
    let undone = unaffine_table();
    array::from_fn(|i| substitute(&inverses, undone[i]))
}

// A table's entry for a byte.
pub fn substitute(table: &[u8; 256], b: u8) -> u8
    ensures { result ≡ get_or table.now b 0 }
{
    table[b as usize]
}

// The entries for the four bytes of a row.
pub fn substitute_row(table: &[u8; 256], row: [u8; 4]) -> [u8; 4]
    ensures { result ≡ four (λ i. get_or table.now (get_or row i 0) 0) }
{
    row.map(|b| substitute(table, b))
}
