ghost use Rattle.std.specs.Prelude.{◌≡◌};
ghost use Rattle.std.specs.Fmt.{WritesOnOk};
ghost use Rattle.hn_script.specs.Field.{letter_text};
ghost use Rattle.hn_script.specs.FirstWords.{IsOneOf, router_firsts, prefix_firsts};
ghost use Rattle.hn_script.specs.Line.{line_spelling, values_text};

use hn_base::{Bytes, Caps, EpId, Hex, Letter, LinkLength, Moment, Name, NodeId};
use hn_prefix::Prefix;
use std::fmt;

/// How an injected datagram comes.
#[derive(Clone, Copy)]
pub enum How {
    /// By unicast from fe80::, port 8231.
    Uni,
    /// By multicast from fe80::, port 8231.
    Multi,
    /// By multicast from 2001:db8::1, port 8231, which is no link-local address.
    Far,
}

/// The word of this way.
impl fmt::Display for How {
    ghost use Rattle.std.specs.Prelude.{Some};
    ghost use Rattle.hn_script.specs.Field.{way_text};

    ghost output = { λ how. Some (way_text how) };

    fn fmt<W: fmt::Write>(&self, f: &mut fmt::Formatter<W>) -> fmt::Result {
        f.write_str(match self {
            How::Uni => "uni",
            How::Multi => "multi",
            How::Far => "far",
        })
    }
}

/// The letter that a line writes for a capability (RFC 7788, section 10.1).
pub fn letter_text(letter: Letter) -> &'static str
    ensures { result.now ≡ letter_text letter }
{
    match letter {
        Letter::M => "M",
        Letter::P => "P",
        Letter::H => "H",
        Letter::L => "L",
    }
}

/// A line of a script. Moments and spans of time are in milliseconds, and at most 2^48.
#[derive(Drop)]
pub enum Line {
    /// A new router of this name runs as the node of this identifier.
    Router(Name, NodeId),
    /// A new link of this name.
    Link(Name),
    /// The router's endpoint, from 1 on, is attached to the link.
    Attach(Name, EpId, Name),
    /// The router's endpoint, from 1 on, is detached.
    Detach(Name, EpId),
    /// The router has this delegated prefix, with its valid and its preferred lifetime in seconds, of which the second is
    /// not above the first; 4294967295 is one that never ends (RFC 7788, section 10.2.1).
    External(Name, Prefix, u32, u32),
    /// The router no longer has this delegated prefix.
    Withdraw(Name, Prefix),
    /// The router's capabilities become these, each from 0 to 7 (RFC 7788, section 10.1).
    Caps(Name, Caps),
    /// The router stops.
    Stop(Name),
    /// The router is started anew.
    Start(Name),
    /// The stream of random words begins anew with this seed.
    Seed(u64),
    /// `flow` loses so many of a hundred copies, from 0 to 100.
    Loss(u8),
    /// The moment becomes this one.
    Time(Moment),
    /// The router ticks.
    Tick(Name),
    /// Until this moment, time passes in steps of this span, which is above 0; after each step all routers tick and
    /// the mail flows.
    Run(Moment, u64),
    /// The copy of this number is delivered.
    Deliver(u64),
    /// The copy of this number is dropped.
    Drop(u64),
    /// The waiting copies are delivered, until none waits.
    Flow,
    /// The router's endpoint, from 1 on, gets a datagram of these bytes in this way.
    Inject(Name, EpId, How, Bytes),
    /// What the router has arrived at is shown.
    Show(Name),
    /// The router's network state hash is shown.
    Hash(Name),
    /// The delegated prefixes that the router uses are shown.
    Used(Name),
    /// The prefixes that the router has assigned to its endpoints are shown.
    Prefixes(Name),
    /// Who is elected for the capability on the link of the router's endpoint, from 1 on, is shown.
    Elect(Name, EpId, Letter),
    /// The Router Advertisement on the router's endpoint, from 1 on, is shown.
    Advert(Name, EpId),
    /// Whether the router is settled, quiet and sound is shown.
    Audit(Name),
    /// What the two routers have arrived at is compared.
    Compare(Name, Name),
    /// How many copies were made and wait is shown.
    Mail,
    /// The router's private link has prefixes of this length; without a length the router has no private link.
    Private(Name, Option<LinkLength>),
    /// The first router takes over from the second what it does not have.
    Sync(Name, Name),
    /// The router chooses its own addresses.
    Address(Name),
    /// The router's own addresses are shown.
    Addresses(Name),
    /// Whether the addresses of the router and of those that it reaches stay is shown.
    Addressed(Name),
    /// The router decides on a local prefix (RFC 4193).
    Ula(Name),
    /// How many of the router and those that it reaches have a local prefix is shown.
    Ulas(Name),
    /// The router sends Router Advertisements on its endpoint, from 1 on.
    Radv(Name, EpId),
    /// The router's endpoint, from 1 on, is asked for a Router Advertisement (RFC 4861, section 4.1).
    Solicit(Name, EpId),
}

impl Line {
    /// The first word.
    fn word(&self) -> &'static str
        ensures { result.now ≡ (line_spelling self.now).first }
    {
        match self {
            Line::Router(..) => "router",
            Line::Link(_) => "link",
            Line::Attach(..) => "attach",
            Line::Detach(..) => "detach",
            Line::External(..) => "external",
            Line::Withdraw(..) => "withdraw",
            Line::Caps(..) => "caps",
            Line::Stop(_) => "stop",
            Line::Start(_) => "start",
            Line::Seed(_) => "seed",
            Line::Loss(_) => "loss",
            Line::Time(_) => "time",
            Line::Tick(_) => "tick",
            Line::Run(..) => "run",
            Line::Deliver(_) => "deliver",
            Line::Drop(_) => "drop",
            Line::Flow => "flow",
            Line::Inject(..) => "inject",
            Line::Show(_) => "show",
            Line::Hash(_) => "hash",
            Line::Used(_) => "used",
            Line::Prefixes(_) => "prefixes",
            Line::Elect(..) => "elect",
            Line::Advert(..) => "advert",
            Line::Audit(_) => "audit",
            Line::Compare(..) => "compare",
            Line::Mail => "mail",
            Line::Private(..) => "private",
            Line::Sync(..) => "sync",
            Line::Address(_) => "address",
            Line::Addresses(_) => "addresses",
            Line::Addressed(_) => "addressed",
            Line::Ula(_) => "ula",
            Line::Ulas(_) => "ulas",
            Line::Radv(..) => "radv",
            Line::Solicit(..) => "solicit",
        }
    }

    /// Writes the values, each after a space.
    fn write_values<W: fmt::Write>(&self, f: &mut fmt::Formatter<W>) -> fmt::Result
        ensures { WritesOnOk W.Write.write_str_gives f.old result (values_text (line_spelling self.now).fields) f.new }
    {
        match self {
            Line::Flow | Line::Mail => Ok(()),
            Line::Link(name)
            | Line::Stop(name)
            | Line::Start(name)
            | Line::Tick(name)
            | Line::Show(name)
            | Line::Hash(name)
            | Line::Used(name)
            | Line::Prefixes(name)
            | Line::Audit(name)
            | Line::Address(name)
            | Line::Addresses(name)
            | Line::Addressed(name)
            | Line::Ula(name)
            | Line::Ulas(name) => write!(f, " {name}"),
            Line::Detach(name, EpId(e))
            | Line::Advert(name, EpId(e))
            | Line::Radv(name, EpId(e))
            | Line::Solicit(name, EpId(e)) => write!(f, " {name} {e}"),
            Line::Seed(n) | Line::Deliver(n) | Line::Drop(n) | Line::Time(n) => write!(f, " {n}"),
            Line::Compare(left, right) | Line::Sync(left, right) => write!(f, " {left} {right}"),
            Line::Loss(percent) => write!(f, " {percent}"),
            Line::Run(end, step) => write!(f, " {end} {step}"),
            Line::Router(..)
            | Line::Attach(..)
            | Line::Caps(..)
            | Line::Elect(..)
            | Line::Inject(..) => self.write_of_router(f),
            Line::External(..) | Line::Withdraw(..) | Line::Private(..) => self.write_of_prefix(f),
        }
    }

    /// The same, of a line with a node, an endpoint and more, or capabilities.
    fn write_of_router<W: fmt::Write>(&self, f: &mut fmt::Formatter<W>) -> fmt::Result
        requires { IsOneOf router_firsts (line_spelling self.now).first }
        ensures { WritesOnOk W.Write.write_str_gives f.old result (values_text (line_spelling self.now).fields) f.new }
    {
        match self {
            Line::Router(name, id) => write!(f, " {name} {id}"),
            Line::Attach(name, EpId(e), link) => write!(f, " {name} {e} {link}"),
            Line::Caps(name, Caps { m, p, h, l }) => write!(f, " {name} {m} {p} {h} {l}"),
            Line::Elect(name, EpId(e), letter) => {
                let letter = letter_text(*letter);
                write!(f, " {name} {e} {letter}")
            }
            Line::Inject(name, EpId(e), how, bytes) => {
                let bytes = Hex(bytes.as_slice());
                write!(f, " {name} {e} {how} {bytes}")
            }
            _ => unreachable!(),
        }
    }

    /// The same, of a line with a prefix or the length of one.
    fn write_of_prefix<W: fmt::Write>(&self, f: &mut fmt::Formatter<W>) -> fmt::Result
        requires { IsOneOf prefix_firsts (line_spelling self.now).first }
        ensures { WritesOnOk W.Write.write_str_gives f.old result (values_text (line_spelling self.now).fields) f.new }
    {
        match self {
            Line::External(name, prefix, valid, preferred) => {
                let prefix = prefix.text();
                write!(f, " {name} {prefix} {valid} {preferred}")
            }
            Line::Withdraw(name, prefix) => {
                let prefix = prefix.text();
                write!(f, " {name} {prefix}")
            }
            Line::Private(name, length) => match length {
                None => write!(f, " {name} off"),
                Some(length) => {
                    let bits = length.get();
                    write!(f, " {name} {bits}")
                }
            },
            _ => unreachable!(),
        }
    }
}

/// The line as it is printed: one space between words, and no LF.
impl fmt::Display for Line {
    ghost use Rattle.std.specs.Prelude.{Some};
    ghost use Rattle.hn_script.specs.Line.{line_text};

    ghost output = { λ line. Some (line_text line) };

    fn fmt<W: fmt::Write>(&self, f: &mut fmt::Formatter<W>) -> fmt::Result {
        f.write_str(self.word())?;
        self.write_values(f)
    }
}
