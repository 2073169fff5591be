ghost use Rattle.std.specs.Prelude.{◌≡◌};
ghost use Rattle.std.proofs.Math.Option.{none};
ghost use Rattle.std.proofs.Props.{props};
ghost use Rattle.spec.specs.Refusals.{form_refusal};
ghost use Rattle.laws.proofs.All.{all_prop};
ghost use Rattle.sheets.specs.Sheets.{Passed};

use crate::Sheets;

/// Two sheets that passed both passes: what each record names is there and of the right sort.
#[derive(Drop)]
pub struct Formed<'a> {
    pub sheets: Sheets<'a>,
    pub ghost passed: { Passed sheets } by { Prim.hlevel (all_prop, props) },
    pub ghost formed: { form_refusal sheets.library sheets.user ≡ none },
}
