ghost use Rattle.sheet.specs.Entries.{head_numbers};
ghost use Rattle.sheet.specs.Readings.{contents_of};
ghost use Rattle.sheet.specs.Sheets.{head_of};
ghost use Rattle.std.specs.Prelude.{◌≡◌};

use crate::sheet::Sheet;

// The head of a sheet: the width of its keys in bits, and how many nodes and values it has. The
// width is a number, since a head's line may have any.
#[derive(Clone, Copy, PartialEq, Eq, Debug)]
pub struct Head {
    pub width: u32,
    pub nodes: u32,
    pub values: u32,
}

// The three numbers in the order of the fields.
impl From<[u32; 3]> for Head {
    ghost from_gives = { λ ns h. head_numbers h ≡ ns };

    fn from(numbers: [u32; 3]) -> Head {
        let [width, nodes, values] = numbers;
        Head {
            width,
            nodes,
            values,
        }
    }
}

impl From<Head> for [u32; 3] {
    ghost from_gives = { λ h ns. ns ≡ head_numbers h };

    fn from(head: Head) -> [u32; 3] {
        [head.width, head.nodes, head.values]
    }
}

impl Sheet {
    pub fn head(&self) -> Head
        ensures head { result ≡ head_of (contents_of self.now) }
        ensures same { self.exit.now ≡ self.entry.now }
    {
        Head {
            width: self.width,
            nodes: self.nodes.len() as u32,
            values: self.values.len() as u32,
        }
    }
}
