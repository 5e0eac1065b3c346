//! Laws of the format of Router Advertisements (RFC 4861, sections 4.2 and 4.6.2).
//!
//! Each is the contract of a function that does nothing: call it to know its law.

ghost use Rattle.std.specs.Prelude.{◌≡◌, ◌⊎◌, ℕ, List, ◌∷◌, ◌++◌, All};
ghost use Rattle.hn_base.specs.Byte.{IsByte};
ghost use Rattle.hn_advert.specs.declared.advert.Advert.{Advert};
ghost use Rattle.hn_advert.specs.Layout.{Header, NdOption, OtherOption};
ghost use Rattle.hn_advert.specs.Advert.{advert_of, IsAdvert, advert_bytes, IsInRange};
ghost use Rattle.hn_advert.specs.Fault.{AdvertFault};

/// What is written is read as that advertisement again.
pub fn written_is_read()
    ensures { (advert : Advert) → IsInRange advert → IsAdvert (advert_bytes advert) advert }
{}

/// Bytes are at most one advertisement.
pub fn advert_is_unique()
    ensures { (bytes : List ℕ) (a b : Advert) → IsAdvert bytes a → IsAdvert bytes b → a ≡ b }
{}

/// Bytes with a fault are no advertisement, and have one first fault only.
pub fn fault_is_unique()
    ensures no_advert { (bytes : List ℕ) (place why : ℕ) (advert : Advert) → AdvertFault bytes place why
        → ¬ (IsAdvert bytes advert) }
    ensures one { (bytes : List ℕ) (p q v w : ℕ) → AdvertFault bytes p v → AdvertFault bytes q w
        → (p ≡ q) × (v ≡ w) }
{}

/// An option of another type adds nothing, wherever it stands among the options.
pub fn other_options_are_skipped()
    ensures { (header : Header) (front rest : List NdOption) (kind units : ℕ) (body : List ℕ)
        → advert_of header (front ++ OtherOption kind units body ∷ rest) ≡ advert_of header (front ++ rest) }
{}

/// Bytes are an advertisement, or they have a fault.
pub fn advert_or_fault()
    ensures { (bytes : List ℕ) → All IsByte bytes
        → ((advert : Advert) × IsAdvert bytes advert) ⊎ ((place why : ℕ) × AdvertFault bytes place why) }
{}
