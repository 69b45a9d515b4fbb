//! The extension types.

/// An extension type.
#[derive(Clone, Copy)]
pub enum ExtensionKind {
    /// `ipaddr`: addresses of the internet protocol.
    Ipaddr,
    /// `decimal`: decimal numbers.
    Decimal,
}
