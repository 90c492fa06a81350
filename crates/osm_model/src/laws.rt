//! Laws of the definitions. Each law is the contract of a function with an empty body.
ghost use Rattle.osm_model.specs.Laws.{LineDeterminesData, LowerRankIsLess, OrderIsTotal};
ghost use Rattle.osm_model.specs.KindLaw.{KindsDontFall};
ghost use Rattle.osm_model.specs.TimeLaw.{TimeLaw};

/// The canonical line determines all data of a version.
pub fn line_determines_data()
    ensures { LineDeterminesData }
{}

/// The order of versions is total, and only equal versions tie.
pub fn order_is_total()
    ensures { OrderIsTotal }
{}

/// A version of a lower rank is less.
pub fn lower_rank_is_less()
    ensures { LowerRankIsLess }
{}

/// The text of a time spells its date and time of day.
pub fn time_text_spells_the_moment()
    ensures { TimeLaw }
{}

/// In an ascending list of versions nodes come first, then ways, then relations.
pub fn kinds_dont_fall()
    ensures { KindsDontFall }
{}
