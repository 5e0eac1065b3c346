//! No premise and no condition of rest can be left out: for each, a home that meets all else and is not sound.

ghost use Rattle.hn_sound.specs.Conditions.Condition.{NothingToDo, Published, Valid, GreaterKey, Unpublished, BestPrefix};
ghost use Rattle.hn_sound.specs.Homes.{shared_identifier, twice_on_link, nested, not_used, outside, two_for_one, low_priority, nothing_assigned, no_publisher, one_for_two_links, two_publishers, published_twice, two_prefixes};
ghost use Rattle.hn_sound.specs.Needed.{ShowsPremise, ShowsCondition};
ghost use Rattle.hn_sound.specs.Premises.Premise.{OneLink, OnceOnLink, UsedApart, ForUsed, PublishedInside, OneEach, PriorityTwo};

/// An endpoint is on one link. Else two routers of one identifier may have one prefix on two links: they have one key,
/// which is not above itself.
pub fn one_link_is_needed()
    ensures { ShowsPremise OneLink shared_identifier }
{}

/// A router has one endpoint on a link. Else it may publish two prefixes there: a best prefix is that of another node.
pub fn once_on_link_is_needed()
    ensures { ShowsPremise OnceOnLink twice_on_link }
{}

/// No two used prefixes overlap. Else what is published for the outer one may be followed for the inner one, which its
/// publisher does not want.
pub fn used_apart_is_needed()
    ensures { ShowsPremise UsedApart nested }
{}

/// Each assignment is for a used prefix. Else what is published for another one may be followed for a used one.
pub fn for_used_is_needed()
    ensures { ShowsPremise ForUsed not_used }
{}

/// What is published is inside its delegated prefix. Else it is nobody's best, and another prefix is published too.
pub fn published_inside_is_needed()
    ensures { ShowsPremise PublishedInside outside }
{}

/// An endpoint has one assignment for a delegated prefix. Else it may publish two.
pub fn one_each_is_needed()
    ensures { ShowsPremise OneEach two_for_one }
{}

/// No priority is below 2. Else two links may have one prefix: an assignment is judged by its key with priority 2,
/// above which no such key is.
pub fn priority_two_is_needed()
    ensures { ShowsPremise PriorityTwo low_priority }
{}

/// With neither a best nor an assignment: not wanted, or nothing free. Else all may be wanted and free, and nothing
/// assigned.
pub fn nothing_to_do_is_needed()
    ensures { ShowsCondition NothingToDo nothing_assigned }
{}

/// Without a best: published. Else all endpoints of a link may have one prefix, and none publishes it.
pub fn published_is_needed()
    ensures { ShowsCondition Published no_publisher }
{}

/// Without a best: valid. Else two links may have one prefix.
pub fn valid_is_needed()
    ensures { ShowsCondition Valid one_for_two_links }
{}

/// Published beside a best: with a greater key. Else two routers of a link may publish two prefixes.
pub fn greater_key_is_needed()
    ensures { ShowsCondition GreaterKey two_publishers }
{}

/// With the prefix of a best: not published. Else two routers of a link may publish one prefix.
pub fn unpublished_is_needed()
    ensures { ShowsCondition Unpublished published_twice }
{}

/// Not published beside a best: with its prefix. Else a router may have another prefix than its link.
pub fn best_prefix_is_needed()
    ensures { ShowsCondition BestPrefix two_prefixes }
{}
