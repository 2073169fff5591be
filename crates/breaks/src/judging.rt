ghost use Rattle.sheets.specs.Sheets.{count, groups, library_count};
ghost use Rattle.overlay.specs.Types.{Known};
ghost use Rattle.captured.specs.Captured.{Shown};
ghost use Rattle.breaks.specs.Bans.{Bans};

use crate::bans::Ban;
use captured::ROW_BYTES;
use records::CLASS_LIMIT;
use sheets::formed::Formed;

/// What is known of two sheets when the rules are asked: rows of the classes' overlay markers and of what is not allowed of them, and the
/// lanes of first captured variables.
#[derive(Drop)]
pub struct Judging<'a> {
    pub formed: &'a Formed<'a>,
    pub markers: &'a [u8; CLASS_LIMIT],
    pub bans: &'a [Ban; CLASS_LIMIT],
    pub lanes: &'a [u8; ROW_BYTES],
    pub ghost known: { Known (groups formed.now.sheets) markers.now },
    pub ghost banned: { Bans (library_count formed.now.sheets) (groups formed.now.sheets) bans.now },
    pub ghost shown: { Shown (groups formed.now.sheets) (count formed.now.sheets) lanes.now },
}
