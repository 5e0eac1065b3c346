//! Laws of departed prefixes. Each is the contract of a function that does nothing: call it to know its law.

ghost use Rattle.hn_departed.specs.Laws.{DepartedAreTold, FewAreKept, FirstGo, DepartedEndSoon, EndpointsKeepTheirs};

/// A departed prefix that is kept is told within 11 advertisements, if nothing departs meanwhile and each has room for 6.
pub fn departed_are_told()
    ensures { DepartedAreTold }
{}

/// An advertisement has no more departed prefixes than there is room for, and at most 64 are kept.
pub fn few_are_kept()
    ensures { FewAreKept }
{}

/// What goes has departed before all that is kept, or with it.
pub fn first_go()
    ensures { FirstGo }
{}

/// What has departed is told for at most 7,200 s from then on.
pub fn departed_end_soon()
    ensures { DepartedEndSoon }
{}

/// What is told on an endpoint is what was told there last: an advertisement on another one does not change it.
pub fn endpoints_keep_theirs()
    ensures { EndpointsKeepTheirs }
{}
