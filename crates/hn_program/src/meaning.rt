/// What was refused. The words for a code are those of docs/FORMATS.md.
#[derive(Clone, Copy)]
pub enum Input {
    /// A script, and with a look the name of a router.
    Script,
    /// The file of a single node.
    NodeFile,
    /// The hexadecimal text of a datagram.
    HexText,
    /// A capture, a datagram on each line.
    Capture,
}

/// What a code says that is looked for in the whole script before anything happens.
fn script_fault(code: u64) -> &'static str {
    match code {
        1 => "the first line is neither hncp 1 nor hncp 2",
        2 => "the first word of a line is unknown in this version, whatever follows it",
        3 => "a line has too few or too many words",
        4 =>
            "a number, name, identifier, prefix, length, capability, way or hexadecimal text is malformed or out of range",
        5 => "a line has more than 16,384 bytes, its LF not counted",
        6 => "a line has a byte outside of 20 to 7E in hexadecimal; a carriage return is one",
        15 => "the script has more than 2^24 bytes",
        _ => "its meaning is not known here",
    }
}

/// What a code says that comes up when a line is played.
fn played_fault(code: u64) -> &'static str {
    match code {
        7 => "a name is unknown, or names the other kind",
        8 => "the name of a new router or link is taken",
        9 =>
            "it would be the 65th router of a home of version 1, the 129th of one of version 2, the 65th link, the 17th endpoint or the ninth delegated prefix of a router, or the 1,000,001st event",
        10 => "the moment would fall",
        11 =>
            "attach: the endpoint is in use; detach, deliver, inject, elect, advert, radv, solicit: it is not attached",
        12 => "the router is stopped",
        13 => "there is no copy of that number",
        14 => "the router already has an endpoint on that link",
        16 =>
            "1,000,000 copies were made, or copies and injected datagrams have 2^28 bytes together",
        18 => "sync: no endpoints of the two routers are joined",
        19 => "address: the router would have more than 64 addresses",
        other => script_fault(other),
    }
}

/// What a code says of the file of a single node.
fn node_file_fault(code: u64) -> &'static str {
    match code {
        1 => "the first line is not hncp 1",
        9 => "it would be the ninth delegated prefix",
        15 => "the file has more than 2^24 bytes",
        other => script_fault(other),
    }
}

/// What a code says of the hexadecimal text of a datagram.
fn hex_text_fault(code: u64) -> &'static str {
    match code {
        4 => "another byte than hexadecimal digits, spaces and LF, or an odd number of digits",
        15 => "more than 2^24 bytes",
        _ => "its meaning is not known here",
    }
}

/// What a code says of a capture.
fn capture_fault(code: u64) -> &'static str {
    match code {
        4 => "a line is no hexadecimal, or empty",
        5 => "a line has more than 131,014 bytes",
        15 => "the source has more than 2^24 bytes",
        _ => "its meaning is not known here",
    }
}

/// What a cause says of a datagram that is no list of TLVs.
pub(crate) fn malformed_meaning(cause: u64) -> &'static str {
    match cause {
        1 => "one to three bytes are left, where type and length take four",
        2 => "the length of a TLV passes the end",
        3 => "a pad byte is missing",
        4 => "a pad byte is not zero",
        _ => "its meaning is not known here",
    }
}

impl Input {
    /// What a code says. Never allocates.
    pub(crate) fn meaning(self, code: u64) -> &'static str {
        match self {
            Input::Script => played_fault(code),
            Input::NodeFile => node_file_fault(code),
            Input::HexText => hex_text_fault(code),
            Input::Capture => capture_fault(code),
        }
    }
}
