/// The version of the language of scripts.
#[derive(Clone, Copy)]
pub enum Version {
    /// The first line of a script is `hncp 1`.
    One,
    /// The first line of a script is `hncp 2`.
    Two,
}
