use net_base::Bytes;

/// A name, or a text between quotes, as its bytes in UTF-8.
pub type Text = Bytes;
