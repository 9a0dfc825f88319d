//! The quotes of a document: the place of the first that isn't closed, if there is one.

/// Where a byte stands in its cell.
#[derive(Clone, Copy, PartialEq, Eq)]
enum Place {
    Start,
    Plain,
    /// Within quotes.
    Quoted,
    /// After the quote that closes the cell.
    Closed,
}

impl Place {
    /// The place after this byte, if it may stand here.
    fn after(self, separator: u8, byte: u8) -> Option<Place> {
        match self {
            Place::Quoted if byte != b'"' => Some(Place::Quoted),
            Place::Quoted => Some(Place::Closed),
            Place::Start | Place::Closed if byte == b'"' => Some(Place::Quoted),
            _ if byte == separator || byte == b'\r' || byte == b'\n' => Some(Place::Start),
            Place::Closed => None,
            Place::Start | Place::Plain => Some(Place::Plain),
        }
    }
}

/// Where the first cell begins whose quote isn't closed, or is and text follows.
pub fn stray_quote(bytes: &[u8], separator: u8) -> Option<usize> {
    let mut place = Place::Start;
    let mut cell = 0;
    for at in 0..bytes.len() {
        if place == Place::Start {
            cell = at;
        }
        let Some(next) = place.after(separator, bytes[at]) else {
            return Some(cell);
        };
        place = next;
    }
    match place {
        Place::Quoted => Some(cell),
        _ => None,
    }
}
