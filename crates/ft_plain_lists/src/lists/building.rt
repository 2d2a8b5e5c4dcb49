//! Lists as a summary gives them.

ghost use Rattle.std.specs.Prelude.{◌≡◌, ◌+◌, ◌++◌, [], ◌∷◌, OnErr, OnOk, length, map};
ghost use Rattle.ft_props.specs.Element.{new_elements};
ghost use Rattle.ft_plain_lists.specs.Contents.{content_of};

use crate::elements::Content;
use crate::lists::PlainList;
use ft_base::{OutOfMemory, Stamp, Stamps};
use ft_props::Props;
use std::slice;

impl PlainList {
    /// Adds sequenced elements with these stamps, author and properties behind all others.
    ///
    /// Returns `OutOfMemory` where there is no room for them or the count of elements would pass
    /// 2^53 - 1.
    pub fn append(
        &mut self,
        ins: Stamp,
        dels: &Stamps,
        by: Option<Stamp>,
        props: &Props,
        contents: &[Content],
    ) -> Result<(), OutOfMemory>
        ensures items { OnOk result (self.new.items ≡ self.old.items ++ new_elements self.old.made ins dels.now by props.now (map content_of contents.now)) }
        ensures made { OnOk result (self.new.made ≡ self.old.made + length contents.now) }
    {
        let count = self.items.len();
        self.put_new(count, ins, dels, by, props, contents)
    }

    /// Adds a sequenced element with these stamps, author and properties behind all others.
    ///
    /// Returns `OutOfMemory` where there is no room for it or the count of elements would pass
    /// 2^53 - 1, and then the list is as it was.
    pub fn push(
        &mut self,
        content: Content,
        ins: Stamp,
        dels: &Stamps,
        by: Option<Stamp>,
        props: &Props,
    ) -> Result<(), OutOfMemory>
        ensures items { OnOk result (self.new.items ≡ self.old.items ++ new_elements self.old.made ins dels.now by props.now (content_of content ∷ [])) }
        ensures made { OnOk result (self.new.made ≡ self.old.made + 1) }
        ensures err { OnErr result (self.new ≡ self.old) }
    {
        let count = self.items.len();
        let contents = slice::from_ref(&content);
        self.put_new(count, ins, dels, by, props, contents)
    }
}
