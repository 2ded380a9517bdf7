//! Shapes of documents, which rows of a table have. They take no memory.
use std::alloc::{AllocError, Global};
use ufmt_doc::{StructName, Tree};

/// The constructors of `Doc`, over slices, and a struct that ends in dots.
#[derive(Clone, Copy)]
pub enum Shape<'a> {
    Leaf(&'a str),
    Listed(&'a [Shape<'a>]),
    SetOf(&'a [Shape<'a>]),
    MapOf(&'a [(Shape<'a>, Shape<'a>)]),
    StructOf(&'a str, &'a [(&'a str, Shape<'a>)]),
    NonExhaustiveOf(&'a str, &'a [(&'a str, Shape<'a>)]),
    TupleOf(&'a str, &'a [Shape<'a>]),
}

/// Makes the document of a shape. Fails also at a struct that ends in dots, if no name says so.
#[cycle(making)]
pub fn made<N: StructName>(alloc: Global, shape: &Shape<'_>) -> Result<Tree<N>, AllocError> {
    match shape {
        Shape::Leaf(name) => Ok(Tree::Leaf(String::from_str(alloc, name)?)),
        Shape::Listed(entries) => Ok(Tree::Listed(all_made(alloc, entries)?)),
        Shape::SetOf(entries) => Ok(Tree::SetOf(all_made(alloc, entries)?)),
        Shape::MapOf(pairs) => Ok(Tree::MapOf(pairs_made(alloc, pairs)?)),
        Shape::StructOf(name, fields) => struct_made(alloc, name, false, fields),
        Shape::NonExhaustiveOf(name, fields) => struct_made(alloc, name, true, fields),
        Shape::TupleOf(name, fields) => tuple_made(alloc, name, fields),
    }
}

#[cycle(making)]
fn struct_made<N: StructName>(
    alloc: Global,
    name: &str,
    ends_in_dots: bool,
    fields: &[(&str, Shape<'_>)],
) -> Result<Tree<N>, AllocError> {
    let name = N::new(String::from_str(alloc, name)?, ends_in_dots).ok_or(AllocError)?;
    Ok(Tree::StructOf(name, fields_made(alloc, fields)?))
}

#[cycle(making)]
fn tuple_made<N: StructName>(
    alloc: Global,
    name: &str,
    fields: &[Shape<'_>],
) -> Result<Tree<N>, AllocError> {
    let name = String::from_str(alloc, name)?;
    Ok(Tree::TupleOf(name, all_made(alloc, fields)?))
}

#[cycle(making)]
fn all_made<N: StructName>(
    alloc: Global,
    shapes: &[Shape<'_>],
) -> Result<Vec<Tree<N>>, AllocError> {
    let mut list = Vec::new(alloc);
    for shape in shapes {
        list.push(made(alloc, shape)?)?;
    }
    Ok(list)
}

#[cycle(making)]
fn pairs_made<N: StructName>(
    alloc: Global,
    shapes: &[(Shape<'_>, Shape<'_>)],
) -> Result<Vec<(Tree<N>, Tree<N>)>, AllocError> {
    let mut pairs = Vec::new(alloc);
    for (key, value) in shapes {
        pairs.push((made(alloc, key)?, made(alloc, value)?))?;
    }
    Ok(pairs)
}

#[cycle(making)]
fn fields_made<N: StructName>(
    alloc: Global,
    shapes: &[(&str, Shape<'_>)],
) -> Result<Vec<(String, Tree<N>)>, AllocError> {
    let mut fields = Vec::new(alloc);
    for (name, value) in shapes {
        fields.push((String::from_str(alloc, name)?, made(alloc, value)?))?;
    }
    Ok(fields)
}
