// What is proved of bases besides.
ghost use Rattle.bases.specs.Laws.{OneBase};

// A context has one base, so the definition leaves nothing open.
pub fn one_base()
    ensures { OneBase }
{}
