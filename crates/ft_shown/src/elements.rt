//! The elements of the text as an editor shows them.

ghost use Rattle.std.specs.Prelude.{◌≡◌, IfOk, OnOk, map};
ghost use Rattle.ft_op.specs.Operation.{segment_contents};
ghost use Rattle.ft_changes.specs.Shown.{restyled, styled_elements};
ghost use Rattle.ft_changes.specs.ShownRuns.{change_at};
ghost use Rattle.ft_plain_lists.specs.Contents.{content_of};

use crate::cuts::place_within;
use ft_base::moved::push;
use ft_base::{Datum, OutOfMemory};
use ft_op::Seg;
use ft_plain_lists::{Content, characters};
use ft_props::Props;
use std::alloc::Global;
use std::marker::Model;

/// A character or a marker, with the properties that it has.
#[derive(Drop)]
pub struct StyledElement {
    content: Content,
    props: Props,
}

impl Model for StyledElement {
    ghost use Rattle.ft_changes.specs.Shown.{ShownElement};
    ghost use Rattle.ft_plain_lists.specs.Contents.{content_of};

    ghost Value = { ShownElement };

    ghost view = { λ a. record { content = content_of a.content; props = a.props } };
}

impl StyledElement {
    /// The character, or the marker by its reference type.
    pub fn content(&self) -> Content
        ensures { content_of result ≡ self.now.content }
    {
        self.content
    }

    /// Its properties.
    pub fn props(&self) -> &Props
        ensures { result.now ≡ self.now.props }
    {
        &self.props
    }

    // Gives it these properties, and no others.
    fn restyle(&mut self, props: &Props) -> Result<(), OutOfMemory>
        ensures { OnOk result (self.new ≡ restyled props.now self.old) }
    {
        self.props = props.copy()?;
        Ok(())
    }
}

/// The elements of a segment, with these properties.
pub fn styled_elements(
    alloc: Global,
    seg: &Seg,
    props: &Props,
) -> Result<Vec<StyledElement>, OutOfMemory>
    ensures { IfOk result (λ new. new.items ≡ styled_elements props.now (segment_contents seg.now)) }
{
    let contents = contents_of(alloc, seg)?;
    styled(alloc, contents.as_slice(), props)
}

// What the elements of a segment are.
fn contents_of(alloc: Global, seg: &Seg) -> Result<Vec<Content>, OutOfMemory>
    ensures { IfOk result (λ contents. map content_of contents.items ≡ segment_contents seg.now) }
{
    match seg {
        Seg::Chars { text } => characters(alloc, text.as_str()),
        Seg::Marker { ref_type } => Ok(vec![in alloc; Content::Marker(*ref_type)]?),
    }
}

// Elements that are this, with these properties.
fn styled(
    alloc: Global,
    contents: &[Content],
    props: &Props,
) -> Result<Vec<StyledElement>, OutOfMemory>
    ensures { IfOk result (λ new. new.items ≡ styled_elements props.now (map content_of contents.now)) }
{
    let mut elements = Vec::new(alloc);
    for content in contents {
        let element = StyledElement {
            content: *content,
            props: props.copy()?,
        };
        push(&mut elements, element)?;
    }
    Ok(elements)
}

/// Gives `count` elements from `place` on these properties, or those of them that there are, and no others.
pub fn restyle(
    elements: &mut [StyledElement],
    place: u64,
    count: u64,
    props: &Props,
) -> Result<(), OutOfMemory>
    ensures { OnOk result (elements.new ≡ change_at place count (restyled props.now) elements.old) }
{
    let start = place_within(place, elements.len());
    let end = place_within(place.saturating_add(count), elements.len());
    restyle_all(&mut elements[start..end], props)
}

// Gives all of these elements these properties, and no others.
fn restyle_all(elements: &mut [StyledElement], props: &Props) -> Result<(), OutOfMemory>
    ensures { OnOk result (elements.new ≡ map (restyled props.now) elements.old) }
{
    for element in elements.iter_mut() {
        element.restyle(props)?;
    }
    Ok(())
}
