ghost use Rattle.std.specs.Prelude.{ℕ, List, map, IfSome, IfNone, string_bytes};
ghost use Rattle.hn_forms.specs.Form.{ArePeerPorts};

use hn_base::NodeId;
use hn_script::number_in;

/// The most peers of a node.
const MOST_PEERS: usize = 8;

/// What `node` is asked for.
#[derive(Clone, Copy)]
pub struct NodeCall {
    /// The node's identifier.
    pub id: NodeId,
    /// Its port, 1,024 to 65,534.
    pub port: u16,
    /// How many turns it is served, 1 to 100,000.
    pub turns: u32,
    /// The seed of its random words.
    pub seed: u64,
    /// How many peers it has, one to eight.
    pub count: u8,
    /// Their ports, each 1,024 to 65,534; the places after those are 0.
    pub peers: [u16; MOST_PEERS],
}

/// What the program is asked for.
#[derive(Clone, Copy)]
pub enum Form {
    /// `lab`: the transcript of a script.
    Lab,
    /// `udp BASE`: the same, where each copy that is delivered goes from this port, 1,024 to 65,534, to the port after it.
    Udp { base: u16 },
    /// `node ID PORT TURNS SEED PEER ..`: a node that is served on a port.
    Node(NodeCall),
    /// `decode`: the contents of a datagram.
    Decode,
    /// `watch`: what was claimed by the datagrams of a capture.
    Watch,
    /// `soak N SEED`: the transcript of the script of a soak of 2 to 32 routers, with this seed.
    Soak { n: u32, seed: u64 },
}

/// The ports that words are, one to eight, and how many.
fn ports_of(words: &[String]) -> Option<(u8, [u16; MOST_PEERS])>
    ensures found { IfSome result (λ found. ArePeerPorts (map string_bytes words.now) found.0 found.1) }
    ensures none { IfNone result ((count : ℕ) → (ports : List ℕ) → ArePeerPorts (map string_bytes words.now) count ports → ⊥) }
{
    if words.is_empty() {
        return None;
    }
    if words.len() > MOST_PEERS {
        return None;
    }
    let mut ports = [0; MOST_PEERS];
    for (place, word) in words.iter().enumerate() {
        ports[place] = number_in(word.as_bytes(), 1024, 65_534)? as u16;
    }
    Some((words.len() as u8, ports))
}

impl NodeCall {
    ghost use Rattle.hn_forms.specs.Form.{IsNodeCall};

    /// The call that these words are.
    fn of(id: &str, port: &str, turns: &str, seed: &str, peers: &[String]) -> Option<NodeCall>
        ensures found { IfSome result (λ call. IsNodeCall call id.now port.now turns.now seed.now (map string_bytes peers.now)) }
        ensures none { IfNone result ((call : NodeCall) → IsNodeCall call id.now port.now turns.now seed.now (map string_bytes peers.now) → ⊥) }
    {
        let id = NodeId::parse(id.as_bytes())?;
        let port = number_in(port.as_bytes(), 1024, 65_534)?;
        let turns = number_in(turns.as_bytes(), 1, 100_000)?;
        let seed = number_in(seed.as_bytes(), 0, u64::MAX)?;
        let (count, peers) = ports_of(peers)?;
        Some(NodeCall {
            id,
            port: port as u16,
            turns: turns as u32,
            seed,
            count,
            peers,
        })
    }
}

impl Form {
    ghost use Rattle.hn_forms.specs.Form.{IsFormOf, IsPlainWord, IsBasedWord, AreCountedWords};
    ghost use Rattle.hn_forms.specs.declared.words.Form.TheVariants as AForm;

    /// The form without numbers of this word.
    fn named(word: &str) -> Option<Form>
        ensures found { IfSome result (λ form. IsPlainWord form word.now) }
        ensures none { IfNone result ((form : Form) → IsPlainWord form word.now → ⊥) }
    {
        match word {
            "lab" => Some(Form::Lab),
            "decode" => Some(Form::Decode),
            "watch" => Some(Form::Watch),
            _ => None,
        }
    }

    /// The form with one number of these words.
    fn based(word: &str, base: &str) -> Option<Form>
        ensures found { IfSome result (λ form. IsBasedWord form word.now base.now) }
        ensures none { IfNone result ((form : Form) → IsBasedWord form word.now base.now → ⊥) }
    {
        if word != "udp" {
            return None;
        }
        let base = number_in(base.as_bytes(), 1024, 65_534)?;
        Some(Form::Udp { base: base as u16 })
    }

    /// The form with two numbers of these words.
    fn counted(word: &str, count: &str, seed: &str) -> Option<Form>
        ensures found { IfSome result (λ form. AreCountedWords form word.now count.now seed.now) }
        ensures none { IfNone result ((form : Form) → AreCountedWords form word.now count.now seed.now → ⊥) }
    {
        if word != "soak" {
            return None;
        }
        let n = number_in(count.as_bytes(), 2, 32)?;
        let seed = number_in(seed.as_bytes(), 0, u64::MAX)?;
        Some(Form::Soak { n: n as u32, seed })
    }

    /// The form `node` with these words, the program's name among them.
    fn of_node(words: &[String]) -> Option<Form>
        ensures found { IfSome result (λ form. IsFormOf form (map string_bytes words.now)) }
        ensures none { IfNone result ((call : NodeCall) → IsFormOf (AForm.Node call) (map string_bytes words.now) → ⊥) }
    {
        let [_, form, id, port, turns, seed, peers @ ..] = words else {
            return None;
        };
        if form.as_str() != "node" {
            return None;
        }
        let call = NodeCall::of(
            id.as_str(),
            port.as_str(),
            turns.as_str(),
            seed.as_str(),
            peers,
        )?;
        Some(Form::Node(call))
    }

    /// The form that the words of the command line ask for, the program's name among them; `None` if and only if they
    /// are bad usage. Never allocates.
    pub fn of(words: &[String]) -> Option<Form>
        ensures found { IfSome result (λ form. IsFormOf form (map string_bytes words.now)) }
        ensures none { IfNone result ((form : Form) → IsFormOf form (map string_bytes words.now) → ⊥) }
    {
        match words {
            [_, form] => Form::named(form.as_str()),
            [_, form, base] => Form::based(form.as_str(), base.as_str()),
            [_, form, count, seed] => Form::counted(form.as_str(), count.as_str(), seed.as_str()),
            _ => Form::of_node(words),
        }
    }
}
