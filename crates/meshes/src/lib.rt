// The fields of index buffers, vertex declarations, vertex buffers and models, one after the other, as 000 lays them out (02, Req 05).
#![tactic(auto)]

ghost use Rattle.std.specs.Prelude.{◌≡◌};
ghost use Rattle.answers.specs.Told.{told};
ghost use Rattle.meshes.specs.Stages.{next_step, stage_of, first_field, field_of, blocks, onward_of, behind_of, told_at, word_of};
ghost use Rattle.meshes.specs.Stages.{to_elements, to_names, to_parents, to_children, to_meshes, to_parts};

use answers::Number;
use leaves::plain::Plain;
use names::kinds;

// A field of a mesh type, in file order.
#[derive(Clone, Copy, Debug, PartialEq, Eq)]
pub enum Step {
    // The fields of an index buffer.
    Flag,
    DataSize,
    IndexData,
    // Those of a vertex declaration.
    Stride,
    ElementCount,
    Offset,
    Format,
    Usage,
    UsageIndex,
    // Those of a vertex buffer.
    Declaration,
    VertexCount,
    VertexData,
    // Those of a model: of its bones, of its meshes, of their parts, and the last two.
    BoneCount,
    BoneName,
    BoneTransform,
    BoneParent,
    ChildCount,
    Child,
    MeshCount,
    MeshName,
    MeshParent,
    Center,
    Radius,
    MeshTag,
    PartCount,
    VertexOffset,
    Vertices,
    StartIndex,
    Primitives,
    PartTag,
    VertexBuffer,
    IndexBuffer,
    Effect,
    Root,
    ModelTag,
    // Behind the last field.
    End,
}

impl Step {
    // The field behind one, in file order.
    fn next(self) -> Step
        ensures { result ≡ next_step self }
    {
        match self {
            Step::Flag => Step::DataSize,
            Step::DataSize => Step::IndexData,
            Step::IndexData => Step::Stride,
            Step::Stride => Step::ElementCount,
            Step::ElementCount => Step::Offset,
            Step::Offset => Step::Format,
            Step::Format => Step::Usage,
            Step::Usage => Step::UsageIndex,
            Step::UsageIndex => Step::Declaration,
            Step::Declaration => Step::VertexCount,
            Step::VertexCount => Step::VertexData,
            Step::VertexData => Step::BoneCount,
            Step::BoneCount => Step::BoneName,
            Step::BoneName => Step::BoneTransform,
            Step::BoneTransform => Step::BoneParent,
            Step::BoneParent => Step::ChildCount,
            Step::ChildCount => Step::Child,
            Step::Child => Step::MeshCount,
            Step::MeshCount => Step::MeshName,
            Step::MeshName => Step::MeshParent,
            Step::MeshParent => Step::Center,
            Step::Center => Step::Radius,
            Step::Radius => Step::MeshTag,
            Step::MeshTag => Step::PartCount,
            Step::PartCount => Step::VertexOffset,
            Step::VertexOffset => Step::Vertices,
            Step::Vertices => Step::StartIndex,
            Step::StartIndex => Step::Primitives,
            Step::Primitives => Step::PartTag,
            Step::PartTag => Step::VertexBuffer,
            Step::VertexBuffer => Step::IndexBuffer,
            Step::IndexBuffer => Step::Effect,
            Step::Effect => Step::Root,
            Step::Root => Step::ModelTag,
            Step::ModelTag | Step::End => Step::End,
        }
    }
}

// The field that stands next; a number that an earlier field told (a flag, a size, a stride or the bone count);
// and how many blocks are left behind this one, and blocks of the block that stands in it.
#[derive(Clone, Copy, Debug, PartialEq, Eq)]
pub struct Stage {
    pub step: Step,
    pub number: u32,
    pub left: u32,
    pub inner: u32,
}

// How a field stands: without need of the reader list, as an object declared String or Object, or as a raw vertex declaration.
#[derive(Clone, Copy, Debug, PartialEq, Eq)]
pub enum Field {
    Plain(Plain),
    Text,
    Anything,
    Declaration,
}

// The stage at a field, with its numbers.
pub fn at_field(step: Step, number: u32, left: u32, inner: u32) -> Stage
    ensures { result ≡ stage_of step number left inner }
{
    Stage {
        step,
        number,
        left,
        inner,
    }
}

// The field that stands first in a mesh type of a kind: 37 to 40 in 02's order.
#[tactic(auto, unfolding(crate::specs::Stages::first_field))]
pub fn first_field(kind: u32) -> Stage
    ensures { result ≡ first_field kind }
{
    match kind {
        kinds::INDEX_BUFFER => at_field(Step::Flag, 0, 0, 0),
        kinds::VERTEX_DECLARATION => at_field(Step::Stride, 0, 0, 0),
        kinds::VERTEX_BUFFER => at_field(Step::Declaration, 0, 0, 0),
        _ => at_field(Step::BoneCount, 0, 0, 0),
    }
}

// How the field at a stage stands.
#[tactic(auto, unfolding(crate::specs::Stages::field_of))]
pub fn field_at(stage: Stage) -> Field
    ensures { result ≡ field_of stage }
{
    match stage.step {
        Step::Flag => Field::Plain(Plain::Fixed(kinds::BOOLEAN, 1)),
        Step::DataSize => Field::Plain(Plain::DataSize(stage.number)),
        Step::IndexData => Field::Plain(Plain::Blob(stage.number as u64)),
        Step::Format => Field::Plain(Plain::Code(11)),
        Step::Usage => Field::Plain(Plain::Code(12)),
        Step::Declaration => Field::Declaration,
        Step::VertexData => Field::Plain(Plain::Blob(stage.left as u64 * stage.number as u64)),
        Step::BoneName | Step::MeshName => Field::Text,
        Step::BoneTransform => Field::Plain(Plain::Fixed(kinds::MATRIX, 64)),
        Step::BoneParent | Step::Child | Step::MeshParent | Step::Root => Field::Plain(Plain::Bone(
            stage.number,
        )),
        Step::Center => Field::Plain(Plain::Fixed(kinds::VECTOR_3, 12)),
        Step::Radius => Field::Plain(Plain::Fixed(kinds::SINGLE, 4)),
        Step::MeshTag | Step::PartTag | Step::ModelTag => Field::Anything,
        Step::VertexBuffer => Field::Plain(Plain::Reference(kinds::VERTEX_BUFFER)),
        Step::IndexBuffer => Field::Plain(Plain::Reference(kinds::INDEX_BUFFER)),
        Step::Effect => Field::Plain(Plain::Reference(0)),
        _ => Field::Plain(Plain::Fixed(kinds::UINT_32, 4)),
    }
}

// So many blocks, of which this is the first, and then what follows.
fn blocks(n: u32, follows: Stage, block: Stage) -> Stage
    ensures { result ≡ blocks n follows block }
{
    if n == 0 {
        return follows;
    }
    block
}

// So many elements of a declaration.
fn to_elements(n: u32) -> Stage
    ensures { result ≡ to_elements n }
{
    let left = n.saturating_sub(1);
    blocks(
        n,
        at_field(Step::End, 0, 0, 0),
        at_field(Step::Offset, 0, left, 0),
    )
}

// So many bones with their parents and children, and then the meshes.
fn to_parents(bones: u32, n: u32) -> Stage
    ensures { result ≡ to_parents bones n }
{
    let left = n.saturating_sub(1);
    blocks(
        n,
        at_field(Step::MeshCount, bones, 0, 0),
        at_field(Step::BoneParent, bones, left, 0),
    )
}

// So many bones with their names and transforms, and then their parents and children.
fn to_names(bones: u32, n: u32) -> Stage
    ensures { result ≡ to_names bones n }
{
    let left = n.saturating_sub(1);
    blocks(
        n,
        to_parents(bones, bones),
        at_field(Step::BoneName, bones, left, 0),
    )
}

// So many children of a bone, and then so many more bones.
fn to_children(bones: u32, left: u32, n: u32) -> Stage
    ensures { result ≡ to_children bones left n }
{
    let inner = n.saturating_sub(1);
    blocks(
        n,
        to_parents(bones, left),
        at_field(Step::Child, bones, left, inner),
    )
}

// So many meshes, and then the root.
fn to_meshes(bones: u32, n: u32) -> Stage
    ensures { result ≡ to_meshes bones n }
{
    let left = n.saturating_sub(1);
    blocks(
        n,
        at_field(Step::Root, bones, 0, 0),
        at_field(Step::MeshName, bones, left, 0),
    )
}

// So many parts of a mesh, and then so many more meshes.
fn to_parts(bones: u32, left: u32, n: u32) -> Stage
    ensures { result ≡ to_parts bones left n }
{
    let inner = n.saturating_sub(1);
    blocks(
        n,
        to_meshes(bones, left),
        at_field(Step::VertexOffset, bones, left, inner),
    )
}

// The field behind one that is not the last of its block.
fn onward(stage: Stage) -> Stage
    ensures { result ≡ onward_of stage }
{
    at_field(stage.step.next(), stage.number, stage.left, stage.inner)
}

// The number of a field that was read, as a word holds it; 0 if it was not.
fn number_of(read: Number) -> u32
    ensures { result ≡ word_of (told read) }
{
    read.map_or(0, |read| (read.value % 4294967296) as u32)
}

// The number that the field at `at` tells: a flag's byte, or the four bytes of a count, a size or a stride.
#[tactic(auto, unfolding(crate::specs::Stages::told_at))]
fn told_at(file: &[u8], step: Step, at: usize) -> u32
    ensures { result ≡ told_at file.now step at }
{
    match step {
        Step::Flag => number_of(numbers::little::little::<u8>(file, at)),
        _ => number_of(numbers::little::little::<u32>(file, at)),
    }
}

// The stage behind the field at a stage, which begins at `at`. Only where the number that it tells counts is that read.
#[tactic(auto, unfolding(crate::specs::Stages::behind_of))]
pub fn after(file: &[u8], stage: Stage, at: usize) -> Stage
    ensures { result ≡ behind_of stage (told_at file.now stage.step at) }
{
    let told = || told_at(file, stage.step, at);
    match stage.step {
        Step::Flag => at_field(Step::DataSize, told(), 0, 0),
        Step::DataSize => at_field(Step::IndexData, told(), 0, 0),
        Step::ElementCount => to_elements(told()),
        Step::UsageIndex => to_elements(stage.left),
        Step::Declaration => at_field(Step::VertexCount, told(), 0, 0),
        Step::VertexCount => at_field(Step::VertexData, stage.number, told(), 0),
        Step::IndexData | Step::VertexData => at_field(Step::End, 0, 0, 0),
        Step::BoneCount => {
            let bones = told();
            to_names(bones, bones)
        }
        Step::BoneTransform => to_names(stage.number, stage.left),
        Step::ChildCount => to_children(stage.number, stage.left, told()),
        Step::Child => to_children(stage.number, stage.left, stage.inner),
        Step::MeshCount => to_meshes(stage.number, told()),
        Step::PartCount => to_parts(stage.number, stage.left, told()),
        Step::Effect => to_parts(stage.number, stage.left, stage.inner),
        _ => onward(stage),
    }
}
