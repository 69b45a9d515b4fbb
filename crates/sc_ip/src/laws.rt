//! The two ways to say which address a text stands for agree, and so do the two ways to say which
//! ranges lie within one another.
ghost use Rattle.std.specs.Prelude.{◌≡◌, ◌↔◌, ℕ, List, Some, IsTrue};
ghost use Rattle.sc_ip.specs.declared.ip.Ip.{Ip};
ghost use Rattle.sc_ip.specs.Addresses.{IsInRange, IsLoopback, IsMulticast, is_in_range, is_loopback, is_multicast};
ghost use Rattle.sc_ip.specs.IpText.{IsIpText};
ghost use Rattle.sc_ip.specs.IpValue.{ip_of};

/// The address that `ip_of` finds is the one that the text stands for.
pub fn ip_laws()
    ensures { (text : List ℕ) (a : Ip) → (ip_of text ≡ Some a) ↔ IsIpText text a }
{}

/// The tests pass exactly the ranges that lie within the other.
pub fn range_laws()
    ensures in_range { (a b : Ip) → IsTrue (is_in_range a b) ↔ IsInRange a b }
    ensures loopback { (a : Ip) → IsTrue (is_loopback a) ↔ IsLoopback a }
    ensures multicast { (a : Ip) → IsTrue (is_multicast a) ↔ IsMulticast a }
{}
