use crate::copies::Copies;
use crate::links::Links;
use crate::member::Members;
use crate::published::Publications;
use crate::trace::Trace;
use hn_base::Version;
use hn_rules::Present;

/// The fields of a world.
#[derive(Drop)]
pub struct Parts {
    pub version: Version,
    pub moment: Present,
    pub links: Links,
    pub members: Members,
    pub copies: Copies,
    pub published: Publications,
    pub trace: Trace,
}
