// The starred bench figures of document 01, proved as one claim about their list. The program `figures` runs them all.
#![tactic(auto)]

ghost use Rattle.bench.specs.Figures.{AllHold, figures};

pub fn law_figures()
    ensures { AllHold figures }
{}
