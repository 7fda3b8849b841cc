// The steps of the table of situations are the page kind's own operations. The statements stand in specs/; each function here promises one.
#![tactic(auto)]

ghost use Rattle.pagesteps.specs.PageSteps.{PageKindSteps, TableAllowed};

// A fill, a copy or a swap of pages among the 64 has the scope and the effect that the page kind gives its body.
pub fn page_steps()
    ensures { PageKindSteps }
{}

// Every step of the table is such a step.
pub fn table_allowed()
    ensures { TableAllowed }
{}
