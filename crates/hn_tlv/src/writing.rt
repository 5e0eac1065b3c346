ghost use Rattle.std.specs.Prelude.{◌≡◌, ◌+◌, ◌%◌, ◌<◌, ◌≤◌, length};
ghost use Rattle.hn_tlv.specs.Grammar.{IsTlv, padding, tlv_size, spelling, IsTlvAt};

/// How many bytes the type and the length of a TLV take.
pub const HEADER_SIZE: usize = 4;

/// How many zero bytes bring a part of `len` bytes to the next multiple of 4 (RFC 7787, section 7). Never allocates.
pub fn padding(len: usize) -> usize
    ensures { result ≡ padding len }
{
    (4 - len % 4) % 4
}

/// How many bytes a TLV takes whose value has `len` bytes, at most 65,535: 4 for its type and length, and `len` rounded
/// up to a multiple of 4 (RFC 7787, section 7). Never allocates.
pub fn size(len: usize) -> usize
    requires { len ≤ 65535 }
    ensures exact { result ≡ tlv_size len }
    ensures multiple_of_four { result % 4 ≡ 0 }
    ensures at_least { 4 + len ≤ result }
    ensures below { result < 8 + len }
{
    HEADER_SIZE + len.next_multiple_of(4)
}

/// Writes the one spelling of the TLV with this type and value (RFC 7787, section 7). The value has at most 65,535
/// bytes, and `out` is as long as the TLV, by `size`. Never allocates.
pub fn write_to(kind: u16, value: &[u8], out: &mut [u8])
    requires value_fits { length value.now ≤ 65535 }
    requires out_fits { length out.old ≡ tlv_size (length value.now) }
    ensures valid { IsTlv (record { kind = kind; value = value.now }) }
    ensures spelled { out.new ≡ spelling (record { kind = kind; value = value.now }) }
    ensures read_back { IsTlvAt out.new 0 (record { kind = kind; value = value.now }) (length out.new) }
{
    let [k0, k1] = kind.to_be_bytes();
    let [l0, l1] = (value.len() as u16).to_be_bytes();
    out[..HEADER_SIZE].copy_from_slice(&[k0, k1, l0, l1]);
    let end = HEADER_SIZE + value.len();
    out[HEADER_SIZE..end].copy_from_slice(value);
    out[end..].fill(0);
}
