//! A site: files that a host serves beside its own page, as they were at its start.

ghost use Rattle.std.specs.Prelude.{◌≡◌, ◌↔◌, ◌++◌, ◌∷◌, [], IsTrue, OnErr, OnOk, map, string_bytes};
ghost use Rattle.std.specs.Option.{option_map};
ghost use Rattle.warp_pages.specs.Site.{file_named};

use bytes::Bytes;
use http::HeaderValue;
use std::alloc::{AllocError, Global};
use std::marker::Model;

/// What stands in front of a file's name in its path.
const FOLDER: &str = "/site/";

/// The file that is served where none is named.
const INDEX: &str = "index.html";

/// A file.
#[derive(Drop)]
struct SiteFile {
    name: String,
    bytes: Bytes,
}

/// The files of a site. It is seen as the list of their names, each with its bytes.
#[derive(Drop)]
pub struct Site {
    files: Vec<SiteFile>,
}

impl Model for Site {
    ghost use Rattle.std.specs.Prelude.{ℕ, List, map, string_bytes};

    ghost Value = { List (List ℕ × List ℕ) };

    ghost view = { λ s. map (λ file. (string_bytes file.name, file.bytes)) s.files.items };
}

impl Site {
    /// No file.
    pub fn new(alloc: Global) -> Site
        ensures { result ≡ [] }
    {
        Site {
            files: Vec::new(alloc),
        }
    }

    /// Whether it has no file.
    pub fn is_empty(&self) -> bool
        ensures { IsTrue result ↔ (self.now ≡ []) }
    {
        self.files.is_empty()
    }

    /// One more file, behind the others. An `Err` changes nothing.
    pub fn add(&mut self, name: String, bytes: Vec<u8>) -> Result<(), AllocError>
        ensures ok { OnOk result (self.new ≡ self.old ++ (string_bytes name, bytes.items) ∷ []) }
        ensures err { OnErr result (self.new ≡ self.old) }
    {
        let bytes = Bytes::from_vec(bytes)?;
        self.files.push(SiteFile { name, bytes })?;
        Ok(())
    }

    /// The bytes of the first file with this name; `None` where there is none.
    pub(crate) fn find(&self, name: &str) -> Option<&Bytes>
        ensures { option_map (λ bytes. bytes.now) result ≡ file_named name.now self.now }
    {
        bytes_in(&self.files, name)
    }
}

/// The bytes of the first of these files with this name; `None` where there is none.
fn bytes_in<'a>(files: &'a [SiteFile], name: &str) -> Option<&'a Bytes>
    ensures { option_map (λ bytes. bytes.now) result
        ≡ file_named name.now (map (λ file. (string_bytes file.name, file.bytes)) files.now) }
{
    for file in files {
        if file.name.as_str() == name {
            return Some(&file.bytes);
        }
    }
    None
}

/// The name of the file that this path asks for; `None` where it is none of a site's.
pub(crate) fn name_in(path: &str) -> Option<&str> {
    let name = path.strip_prefix(FOLDER)?;
    if name.is_empty() {
        return Some(INDEX);
    }
    Some(name)
}

/// What a browser is told of what a file of this name has.
pub(crate) fn kind_of(name: &str) -> HeaderValue {
    let (_, ending) = name.rsplit_once('.').unwrap_or(("", ""));
    match ending {
        "html" => HeaderValue::from_static("text/html; charset=utf-8"),
        "js" | "mjs" => HeaderValue::from_static("text/javascript; charset=utf-8"),
        "css" => HeaderValue::from_static("text/css; charset=utf-8"),
        "wasm" => HeaderValue::from_static("application/wasm"),
        "json" => HeaderValue::from_static("application/json"),
        "txt" | "md" | "lf" => HeaderValue::from_static("text/plain; charset=utf-8"),
        "svg" => HeaderValue::from_static("image/svg+xml"),
        "png" => HeaderValue::from_static("image/png"),
        "jpg" | "jpeg" => HeaderValue::from_static("image/jpeg"),
        "gif" => HeaderValue::from_static("image/gif"),
        "webp" => HeaderValue::from_static("image/webp"),
        "ico" => HeaderValue::from_static("image/x-icon"),
        "woff2" => HeaderValue::from_static("font/woff2"),
        "mp3" => HeaderValue::from_static("audio/mpeg"),
        "ogg" => HeaderValue::from_static("audio/ogg"),
        "wav" => HeaderValue::from_static("audio/wav"),
        // Bytes of which nothing is known.
        _ => HeaderValue::from_static("application/octet-stream"),
    }
}
