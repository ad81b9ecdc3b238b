/// The code and the subcode of a NOTIFICATION (RFC 4271, section 4.5), which closes the connection.
#[derive(Clone, Copy, Debug, PartialEq, Eq)]
pub struct Notify {
    pub code: u8,
    pub sub: u8,
}
