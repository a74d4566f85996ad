//! Where a part of a program file begins in the bytes of the file.
//!
//! The bytes are a JSON text, and the parts are there: a look over the bytes finds each by its key or its place. A key
//! that is spelled with escapes is not found; what is around its value stands for that then.

/// A place in a text: its line, and its column in bytes, both from 1.
#[derive(Clone, Copy)]
pub(crate) struct LineColumn {
    pub line: usize,
    pub column: usize,
}

/// The position of the byte at this place.
pub(crate) fn position(bytes: &[u8], place: usize) -> LineColumn {
    let mut line: usize = 1;
    let mut column: usize = 1;
    for (i, byte) in bytes.iter().enumerate() {
        if i < place {
            if *byte == b'\n' {
                line = line.saturating_add(1);
                column = 1;
            } else {
                column = column.saturating_add(1);
            }
        }
    }
    LineColumn { line, column }
}

/// The first place from this one on that is no white space; how many bytes there are where there is none.
pub(crate) fn after_white(bytes: &[u8], from: usize) -> usize {
    for (i, byte) in bytes.iter().enumerate() {
        if i >= from && !matches!(*byte, b' ' | b'\t' | b'\n' | b'\r') {
            return i;
        }
    }
    bytes.len()
}

/// How deep a look over JSON is, and whether it is in a string.
#[derive(Drop)]
struct Look {
    depth: usize,
    is_in_string: bool,
    is_escaped: bool,
}

impl Look {
    /// A look that begins before an object or a list.
    fn new() -> Look {
        Look {
            depth: 0,
            is_in_string: false,
            is_escaped: false,
        }
    }

    /// Goes on behind this byte.
    fn pass(&mut self, byte: u8) {
        if self.is_in_string {
            self.pass_in_string(byte);
            return;
        }
        match byte {
            b'"' => self.is_in_string = true,
            b'[' | b'{' => self.depth = self.depth.saturating_add(1),
            b']' | b'}' => self.depth = self.depth.saturating_sub(1),
            _ => {}
        }
    }

    fn pass_in_string(&mut self, byte: u8) {
        if self.is_escaped {
            self.is_escaped = false;
        } else if byte == b'\\' {
            self.is_escaped = true;
        } else if byte == b'"' {
            self.is_in_string = false;
        }
    }

    /// Whether it is in the object or the list itself, and in none of its parts.
    fn is_inside(&self) -> bool {
        self.depth == 1 && !self.is_in_string
    }
}

/// Where the item of this number begins, of the list that begins at this place.
pub(crate) fn item_place(bytes: &[u8], list: usize, number: usize) -> usize {
    let mut look = Look::new();
    let mut commas: usize = 0;
    for (i, byte) in bytes.iter().enumerate() {
        if i > list && look.is_inside() {
            if commas == number {
                return after_white(bytes, i);
            }
            if *byte == b',' {
                commas = commas.saturating_add(1);
            }
        }
        if i >= list {
            look.pass(*byte);
        }
    }
    list
}

/// Where the value under this key begins, of the object that begins at this place; the object where no such key stands
/// in it. Of several the last counts.
pub(crate) fn member_place(bytes: &[u8], object: usize, key: &str) -> usize {
    let mut look = Look::new();
    let mut text = object;
    let mut found = object;
    for (i, byte) in bytes.iter().enumerate() {
        if i > object && look.is_inside() {
            match *byte {
                b'"' => text = i,
                b':' => if is_key(bytes, text, key) {
                    found = after_white(bytes, i.saturating_add(1));
                },
                b'}' => return found,
                _ => {}
            }
        }
        if i >= object {
            look.pass(*byte);
        }
    }
    found
}

/// Whether the string that begins at this place is this key, which needs no escape.
fn is_key(bytes: &[u8], text: usize, key: &str) -> bool {
    let start = text.saturating_add(1);
    for (i, wanted) in key.as_bytes().iter().enumerate() {
        if byte_at(bytes, start.saturating_add(i)) != *wanted {
            return false;
        }
    }
    byte_at(bytes, start.saturating_add(key.len())) == b'"'
}

/// The byte at a place, or 0 where there is none.
fn byte_at(bytes: &[u8], place: usize) -> u8 {
    match bytes.get(place) {
        Some(byte) => *byte,
        None => 0,
    }
}
