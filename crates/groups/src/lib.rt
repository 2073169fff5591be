// How far a group goes.
#![tactic(auto)]

ghost use Rattle.std.specs.Prelude.{◌≡◌};
ghost use Rattle.theory.specs.Claims.{first_length};
ghost use Rattle.groups.specs.Sheets.{AtGroup};

use records::kind::Kind;
use records::nth_in;

// How long the group is that these bytes begin with. They are handed over from its first byte on, so nothing before it is asked.
pub fn group_length(rest: &[u8]) -> usize
    requires { AtGroup rest.now }
    ensures { result ≡ first_length rest.now }
{
    nth_in(rest, Kind::Class.number(), 1)
}
