// The worked figures of a site.
ghost use Rattle.sites.specs.Figures.{Figures};

// The worked figures follow from the definitions.
// Kept: one such function to a crate, since each asks for its own figures.
pub fn figures_stand()
    ensures { Figures }
{}
