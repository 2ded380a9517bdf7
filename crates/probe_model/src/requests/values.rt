//! Values of std's types that hold the payload, in each mode and by each trait that they have. Tuples are printed where
//! they are parsed.
use super::Request;
use crate::digest::Digest;
use crate::pieces::Pieces;
use std::alloc::{AllocError, Global};
use std::borrow::{Cow, CowStr};
use std::boxed::BoxedStr;
use std::cmp::{Ordering, Reverse};
use std::collections::{BTreeMap, BTreeSet, HashMap, HashSet, LinkedList, VecDeque};
use std::ops::{Bound, ControlFlow};
use std::rc::{Rc, RcStr};
use std::sync::{Arc, ArcStr};
use ufmt::cells::{CellValue, RefCellValue};
use ufmt::{uDebug, uDisplay, write_debug, write_display, write_pretty};

/// Writes values that hold the text.
pub fn pieces(request: &Request<'_>, text: &str) -> Result<Digest, AllocError> {
    let mut pieces = Pieces::new();
    pieces.texts(request.alloc, text)?;
    pieces.characters(text);
    pieces.small_types(text);
    pieces.ranges(text);
    pieces.lists(request.alloc, text)?;
    pieces.sets(request.alloc, text)?;
    pieces.maps(request.alloc, text)?;
    pieces.shared(request.alloc, text)?;
    Ok(pieces.digest)
}

impl Pieces {
    /// Prints a value in each mode.
    pub fn value<T: uDebug>(&mut self, value: &T) {
        let _ = write_debug(self, value);
        let _ = write_pretty(self, value);
    }

    fn shown<T: uDebug + uDisplay>(&mut self, value: &T) {
        self.value(value);
        let _ = write_display(self, value);
    }

    fn texts(&mut self, alloc: Global, text: &str) -> Result<(), AllocError> {
        self.shown(&text);
        self.shown(&String::from_str(alloc, text)?);
        self.shown(&CowStr::<Global>::Borrowed(text));
        self.shown(&CowStr::Owned(String::from_str(alloc, text)?));
        self.shown(&RcStr::from_str(alloc, text)?);
        self.shown(&ArcStr::from_str(alloc, text)?);
        self.shown(&BoxedStr::from_str(alloc, text)?);
        Ok(())
    }

    fn characters(&mut self, text: &str) {
        for character in text.chars().take(16) {
            self.shown(&character);
        }
        self.shown(&true);
        self.shown(&false);
    }

    fn small_types(&mut self, text: &str) {
        self.value(&[Some(text), None]);
        self.value(&[Ok(text), Err('c')]);
        self.value(&Reverse(text));
        self.value(&[Ordering::Less, Ordering::Equal, Ordering::Greater]);
        self.value(&[
            Bound::Included(text),
            Bound::Excluded(text),
            Bound::Unbounded,
        ]);
        self.value(&ControlFlow::<&str, u8>::Break(text));
        self.value(&ControlFlow::<u8, &str>::Continue(text));
        self.value(&CellValue(text));
        self.value(&RefCellValue::Borrowed::<u8>);
    }

    fn ranges(&mut self, text: &str) {
        let length = text.len();
        self.value(&(text..text));
        self.value(&(length..=length));
        self.value(&(text..));
        self.value(&(..text));
        self.value(&(..=text));
        self.value(&(..));
    }

    fn lists(&mut self, alloc: Global, text: &str) -> Result<(), AllocError> {
        let items = [text, text, text];
        self.value(&items);
        self.value(&items.as_slice());
        self.value(&Vec::from_slice(alloc, &items)?);
        let mut queue = VecDeque::new(alloc);
        let mut list = LinkedList::new(alloc);
        for item in items {
            queue.push_back(item)?;
            list.push_back(item)?;
        }
        self.value(&queue);
        self.value(&list);
        Ok(())
    }

    fn sets(&mut self, alloc: Global, text: &str) -> Result<(), AllocError> {
        let mut set = BTreeSet::new(alloc);
        let mut hashed = HashSet::new(alloc);
        self.value(&set);
        set.insert(text)?;
        hashed.insert(text)?;
        self.value(&set);
        self.value(&hashed);
        Ok(())
    }

    fn maps(&mut self, alloc: Global, text: &str) -> Result<(), AllocError> {
        let mut map = BTreeMap::new(alloc);
        let mut hashed = HashMap::new(alloc);
        self.value(&map);
        map.insert(text, 7u8)?;
        hashed.insert(text, 7u8)?;
        self.value(&map);
        self.value(&hashed);
        Ok(())
    }

    fn shared(&mut self, alloc: Global, text: &str) -> Result<(), AllocError> {
        self.shown(&Rc::new(alloc, text)?);
        self.shown(&Arc::new(alloc, text)?);
        self.shown(&Box::new(alloc, text)?);
        self.shown(&Cow::Borrowed(&text));
        self.shown(&&text);
        Ok(())
    }
}
