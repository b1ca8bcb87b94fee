//! `RequestedExtensions`, an iterator over the parsed values of requested extensions.

ghost use Rattle.std.specs.Prelude.{◌≡◌, map};
ghost use Rattle.std.specs.Iterator.{YieldsFirstRef, item_count};

use std::marker::Model;
use std::slice;
use x509_ext::{ParsedExtension, X509Extension};

/// An iterator over the parsed values of requested extensions, in the order of the encoding.
#[derive(Drop)]
pub struct RequestedExtensions<'n, 'a> {
    extensions: slice::Iter<'n, X509Extension<'a>>,
}

impl<'n, 'a> Model for RequestedExtensions<'n, 'a> {
    ghost use Rattle.std.specs.Prelude.{List, map};
    ghost use Rattle.std.specs.Slice.Iter.{iter_rest};
    ghost use Rattle.x509_ext.specs.Values.{ParsedExtension as Parsed};

    ghost Value = { List Parsed };

    ghost view = { λ it. map (λ e. e.parsed_extension) (iter_rest it.extensions) };
}

impl<'n, 'a> RequestedExtensions<'n, 'a> {
    pub(crate) fn new(extensions: &'n [X509Extension<'a>]) -> RequestedExtensions<'n, 'a>
        ensures { result ≡ map (λ e. e.parsed_extension) extensions.now }
    {
        RequestedExtensions {
            extensions: extensions.iter(),
        }
    }
}

impl<'n, 'a> Iterator for RequestedExtensions<'n, 'a> {
    type Item = &'n ParsedExtension<'a>;

    ghost next_gives = { YieldsFirstRef (λ left. left) };

    ghost remaining = { item_count (λ left. left) };

    fn next(&mut self) -> Option<&'n ParsedExtension<'a>> {
        let extension = self.extensions.next()?;
        Some(extension.parsed_extension())
    }
}
