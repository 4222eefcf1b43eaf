// The names that the text knows.
ghost use Rattle.std.specs.Prelude.{◌≡◌, ◌≤◌, MatchOption, IfSome};
ghost use Rattle.keys.specs.Names.{among, family_named, device_named, key_named, Names};
ghost use Rattle.keys.specs.Rows.{rows_of};

use crate::rows::Row;
use lexical::is_word;

// The families, by the kinds of their blocks.
const FAMILIES: [Row; 5] = [
    Row {
        name: b"CalGray",
        number: 1,
    },
    Row {
        name: b"CalRGB",
        number: 2,
    },
    Row {
        name: b"Lab",
        number: 3,
    },
    Row {
        name: b"Indexed",
        number: 4,
    },
    Row {
        name: b"Separation",
        number: 5,
    },
];

// The device spaces, by their counts of components.
const DEVICES: [Row; 3] = [
    Row {
        name: b"DeviceGray",
        number: 1,
    },
    Row {
        name: b"DeviceRGB",
        number: 3,
    },
    Row {
        name: b"DeviceCMYK",
        number: 4,
    },
];

// The keys of a dictionary.
const KEYS: [Row; 10] = [
    Row {
        name: b"WhitePoint",
        number: 1,
    },
    Row {
        name: b"BlackPoint",
        number: 2,
    },
    Row {
        name: b"Gamma",
        number: 3,
    },
    Row {
        name: b"Matrix",
        number: 4,
    },
    Row {
        name: b"Range",
        number: 5,
    },
    Row {
        name: b"FunctionType",
        number: 6,
    },
    Row {
        name: b"Domain",
        number: 7,
    },
    Row {
        name: b"C0",
        number: 8,
    },
    Row {
        name: b"C1",
        number: 9,
    },
    Row {
        name: b"N",
        number: 10,
    },
];

// The number of a name in a table.
fn among(table: &[Row], word: &[u8]) -> Option<u8>
    ensures { Names result (among (rows_of table.now) word.now) 10 }
{
    for row in table {
        if is_word(word, row.name) {
            return Some(row.number);
        }
    }
    None
}

// The kind of the family that is named.
#[tactic(auto, unfolding(crate::specs::Names::family_named))]
pub fn family_named(word: &[u8]) -> Option<u8>
    ensures { Names result (family_named word.now) 5 }
{
    among(&FAMILIES, word)
}

// The count of components of the device space that is named.
#[tactic(auto, unfolding(crate::specs::Names::device_named))]
pub fn device_named(word: &[u8]) -> Option<u8>
    ensures { Names result (device_named word.now) 4 }
{
    among(&DEVICES, word)
}

// The number of the key that is named.
#[tactic(auto, unfolding(crate::specs::Names::key_named))]
pub fn key_named(word: &[u8]) -> Option<u8>
    ensures { Names result (key_named word.now) 10 }
{
    among(&KEYS, word)
}
