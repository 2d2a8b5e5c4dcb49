//! Whether what is shown is what a view has.

use ft_base::Datum;
use ft_msg::{Run, View};
use ft_plain_lists::Content;
use ft_props::Props;
use ft_shown::{Shown, StyledElement};

/// Whether the same is shown as the view has.
pub fn is_view(shown: &Shown, view: &View) -> bool {
    shown.rows() == view.rows
        && shown.cols() == view.cols
        && are_same(shown.intervals(), view.intervals.as_slice())
        && are_same(shown.cells(), view.cells.as_slice())
        && are_contents(shown.elements(), view)
        && are_styled(shown.elements(), view.runs.as_slice())
}

// Whether both lists are equal.
fn are_same<T: Datum>(mine: &[T], theirs: &[T]) -> bool {
    if mine.len() != theirs.len() {
        return false;
    }
    for (own, other) in mine.iter().zip(theirs) {
        if !own.same(other) {
            return false;
        }
    }
    true
}

// Whether the elements are the characters and the markers of the view.
fn are_contents(elements: &[StyledElement], view: &View) -> bool {
    let mut characters = view.text.as_str().chars();
    let mut markers = view.markers.as_slice().iter();
    for (place, element) in elements.iter().enumerate() {
        let is_same = match element.content() {
            Content::Character(character) => characters.next() == Some(character),
            Content::Marker(ref_type) => match markers.next() {
                Some(marker) => marker.pos == place as u64 && marker.ref_type == ref_type,
                None => false,
            },
            Content::Unit => false,
        };
        if !is_same {
            return false;
        }
    }
    characters.next().is_none() && markers.next().is_none()
}

// Whether the elements have the properties of the runs, and those beside them none.
fn are_styled(elements: &[StyledElement], runs: &[Run]) -> bool {
    let mut passed = 0;
    for (place, element) in elements.iter().enumerate() {
        let run = runs.get(passed);
        if !is_styled(element.props(), place as u64, run) {
            return false;
        }
        if ends_at(run, place as u64) {
            passed = passed.saturating_add(1);
        }
    }
    passed == runs.len()
}

// Whether an element at the place has the properties of the run, if that is where it stands, and else none.
fn is_styled(props: &Props, place: u64, run: Option<&Run>) -> bool {
    match run {
        Some(run) if run.start <= place => props.same(&run.props),
        Some(_) | None => props.is_empty(),
    }
}

// Whether the run's last element stands at the place.
fn ends_at(run: Option<&Run>, place: u64) -> bool {
    match run {
        Some(run) => run.end.saturating_sub(1) == place,
        None => false,
    }
}
