// Whether the bytes of a group are whole records with one CLASS, its first.
#![tactic(auto)]

ghost use Rattle.std.specs.Prelude.{◌≡◌, ◌+◌, ◌<◌};
ghost use Rattle.spec.specs.Refusals.{whole_group};

use records::kind::Kind;
use records::{KIND_AT, whole_length, word_in};

pub fn whole_group(group: &[u8]) -> bool
    ensures { result ≡ whole_group group.now }
{
    let mut at = 0;
    while at < group.len() {
        let Some(len) = whole_length(&group[at..]) else {
            return false;
        };
        let kind = word_in(group, at + KIND_AT);
        let is_class = kind == Kind::Class.number();
        let is_first = at == 0;
        if is_class != is_first {
            return false;
        }
        at += len;
    }
    !group.is_empty()
}
