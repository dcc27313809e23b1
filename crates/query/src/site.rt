ghost use Rattle.query.specs.Sites.{site_numbers, site_text};
ghost use Rattle.std.specs.Prelude.{◌≡◌, Some};
ghost use Rattle.std.proofs.Common.{rules};

use sheet::line::Line;
use std::fmt;

// Where an upload belongs: the dam, the borehole in it, and the logger.
#[derive(Clone, Copy, PartialEq, Eq, Debug)]
pub struct Site {
    pub dam: u32,
    pub borehole: u32,
    pub logger: u32,
}

// The three numbers in the order of the fields.
impl From<[u32; 3]> for Site {
    ghost from_gives = { λ ns s. site_numbers s ≡ ns };

    fn from(numbers: [u32; 3]) -> Site {
        let [dam, borehole, logger] = numbers;
        Site {
            dam,
            borehole,
            logger,
        }
    }
}

impl From<Site> for [u32; 3] {
    ghost from_gives = { λ s ns. ns ≡ site_numbers s };

    fn from(site: Site) -> [u32; 3] {
        [site.dam, site.borehole, site.logger]
    }
}

impl Line<3> for Site {
    ghost numbers = { site_numbers };

    ghost fits_memory = { Prim.search rules };

    ghost has_count = { Prim.search rules };

    ghost identified = { Prim.search rules };

    fn from_columns(columns: &[u32; 3]) -> Option<Site> {
        Some(Site::from(*columns))
    }

    fn to_columns(self) -> [u32; 3] {
        <[u32; 3]>::from(self)
    }
}

impl fmt::Display for Site {
    ghost output = { λ s. Some (site_text s) };

    fn fmt<W: fmt::Write>(&self, f: &mut fmt::Formatter<W>) -> fmt::Result {
        let Site {
            dam,
            borehole,
            logger,
        } = *self;
        write!(f, "dam {dam}, borehole {borehole}, logger {logger}")
    }
}
