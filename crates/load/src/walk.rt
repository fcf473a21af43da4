// The walk over values in file order: objects, raw values and their children, with a row for each.
ghost use Rattle.std.specs.Prelude.{◌≡◌};
ghost use Rattle.leaves.specs.Plain.{Begin};
ghost use Rattle.steps.specs.Known.{Known, KnownNest, KnownValue, Ready};
ghost use Rattle.steps.specs.Steps.{KnownRaw, NoRule, step_of, topped, plain_words};
ghost use Rattle.steps.specs.Front.{Takeable};
ghost use Rattle.steps.specs.Promises.{FlatSteps, PlacedSteps, ValueSteps, RawWalks, NestWalks};

use answers::{Read, Refusal};
use heads::nest::{Below, Nest};
use heads::slot::Slot;
use ids::{RowNumber, TypeId};
use leaves::plain::Plain;
use names::kinds;
use objects::start::Started;
use readers::Readers;
use steps::{Children, Stepped};
use table::Grid;
use walked::{Head, Reached, Spot, Walk};

// A value of a kind without a rule and without a count, once its children are walked: its row.
fn close_plain(
    words: &mut [u32],
    grid: Grid,
    kind: u32,
    h: Head,
    children: u32,
    walked: Walk,
) -> Result<Stepped, Refusal>
    ensures value { result ≡ step_of (topped h.padding walked) }
    ensures words_after { words.new ≡ plain_words grid words.old h kind children walked }
{
    let reached = walked?;
    let row = h.row;
    let branch = table::rows_from(row, reached.used);
    let r = walked::row_words(h, kind, children, branch, reached.next);
    table::put_row(words, grid, row, r);
    Ok(Stepped::Done(Reached {
        used: reached.used,
        padding: table::sum(h.padding, reached.padding),
        next: reached.next,
    }))
}

// A raw value of a kind, once its head is read: walked, unless its children need the reader list.
// Only a font has a rule, and its children need the reader list; only a text has a count that is a seven-bit number, and it has no children.
fn close_flat(
    file: &[u8],
    words: &mut [u32],
    grid: Grid,
    shared: u32,
    kind: u32,
    place: usize,
    h: Head,
    at: usize,
    depth: u32,
    next: usize,
    below: Below,
) -> Result<Stepped, Refusal>
    requires { Ready file.now words.old grid h at × NoRule kind below }
    ensures { FlatSteps grid file.now shared kind place h at depth next below words.old words.new result }
{
    let first = h.row.0 + 1;
    match below {
        Below::Nothing(count) => {
            let row = h.row;
            let whole = Head {
                row,
                first: h.first,
                parent: h.parent,
                detail: h.detail,
                padding: table::sum(h.padding, count),
            };
            walked::leaf(words, grid, whole, kind, 0, Ok(Read { value: 0, next })).map(
                Stepped::Done,
            )
        }
        Below::Simple(run) => {
            let n = table::word(leaves::run::turns(run));
            let below = Spot {
                at: next,
                used: first,
                depth,
                parent: first,
            };
            let walked = leaves::run::read_run(file, words, grid, shared, run, below);
            close_plain(words, grid, kind, h, n, walked)
        }
        Below::Nested(nest) => Ok(Stepped::Nested {
            place,
            from: at,
            nest,
            padding: h.padding,
            id: TypeId(h.detail),
            next,
        }),
    }
}

// A raw value of the type at `place`, as far as it needs no reader list.
fn raw_step(
    file: &[u8],
    codes: &[u32],
    words: &mut [u32],
    grid: Grid,
    shared: u32,
    place: usize,
    h: Head,
    at: usize,
    depth: u32,
) -> Result<Stepped, Refusal>
    requires { Ready file.now words.old grid h at }
    ensures { PlacedSteps grid file.now codes.now shared place h at depth words.old words.new result }
{
    let head = heads::open::open(file, codes, place, at)?;
    let kind = heads::slot::row_kind(codes, place);
    close_flat(
        file, words, grid, shared, kind, place, h, at, depth, head.next, head.below,
    )
}

// The value in a slot, with the depth left, as far as it needs no more of the reader list than how many readers
// there are and the place of the type that the value's type id names.
fn value(
    file: &[u8],
    codes: &[u32],
    words: &mut [u32],
    count: u32,
    target: u16,
    grid: Grid,
    shared: u32,
    slot: Slot,
    spot: Spot,
) -> Result<Stepped, Refusal>
    requires { KnownValue file.now codes.now words.old grid slot spot.at spot.used count target }
    ensures { ValueSteps grid file.now codes.now words.old words.new result
        count target shared slot spot.at spot.used spot.depth spot.parent }
{
    let named = target as usize;
    match objects::start::start(file, codes, count, named, grid.room, slot, spot) {
        Err(refusal) => Err(refusal),
        Ok(Started::Plain(plain)) => match plain {
            Plain::Fixed(kind, size) => {
                leaves::plain::read_fixed(file, words, grid, kind, size, spot).map(Stepped::Done)
            }
            _ => {
                leaves::plain::read_plain(file, words, grid, shared, plain, spot).map(Stepped::Done)
            }
        },
        Ok(Started::Null { next, padding }) => {
            let h = Head {
                row: RowNumber(spot.used),
                first: spot.at,
                parent: spot.parent,
                detail: 0,
                padding,
            };
            walked::leaf(words, grid, h, 0, 0, Ok(Read { value: 0, next })).map(Stepped::Done)
        }
        Ok(
            Started::Raw {
                place,
                from,
                id,
                padding,
            },
        ) => {
            let h = Head {
                row: RowNumber(spot.used),
                first: spot.at,
                parent: spot.parent,
                detail: id.0,
                padding,
            };
            raw_step(
                file,
                codes,
                words,
                grid,
                shared,
                place,
                h,
                from,
                spot.depth - 1,
            )
        }
    }
}

// A raw value of the type at `place`, whose head ends at `next` and whose children need the reader list and have the depth left.
#[cycle(values)]
fn raw(
    file: &[u8],
    codes: &[u32],
    rd: Readers,
    words: &mut [u32],
    grid: Grid,
    shared: u32,
    place: usize,
    h: Head,
    at: usize,
    next: usize,
    nest: Nest,
    depth: u32,
) -> Walk
    requires { Ready file.now words.old grid h at × Known file.now codes.now rd × KnownRaw file.now codes.now place at next nest }
    ensures { RawWalks grid file.now codes.now rd shared place h at next nest depth
        words.old words.new result }
{
    let first = h.row.0 + 1;
    let children = below(
        file, codes, rd, words, grid, shared, nest, next, first, depth,
    )?;
    let kind = heads::slot::row_kind(codes, place);
    objects::close::close(
        file,
        words,
        grid,
        h,
        kind,
        children.count,
        at,
        Ok(children.reached),
    )
}

// Lists of fewer elements are walked one element after the other: what `list_from` takes at once would not make up for the call.
const LONG: u32 = 32;

// How many of n objects may be taken at once: all where Object or String is declared and depth is left, else none.
fn takeable(codes: &[u32], declared: usize, n: u32, depth: u32) -> u32
    ensures { Takeable n depth result }
{
    if depth == 0 {
        return 0;
    }
    match targets::kind_at(codes, declared) {
        kinds::STRING | kinds::OBJECT => n,
        _ => 0,
    }
}

// What stands below a raw value: a long list as such, all else as its nest says.
// The parent is the row before the first of these.
#[cycle(values)]
pub(crate) fn below(
    file: &[u8],
    codes: &[u32],
    rd: Readers,
    words: &mut [u32],
    grid: Grid,
    shared: u32,
    nest: Nest,
    at: usize,
    used: u32,
    depth: u32,
) -> Result<Children, Refusal>
    requires { Begin file.now words.old grid at used × Known file.now codes.now rd × KnownNest file.now codes.now nest }
    ensures { NestWalks grid file.now codes.now rd shared nest at used depth used
        words.old words.new result }
{
    match nest {
        Nest::Each(slot, n) if LONG <= n => list_from(
            file, codes, rd, words, grid, shared, slot, n, at, used, depth,
        ),
        _ => nested(
            file,
            codes,
            rd,
            words,
            grid,
            shared,
            nest,
            Spot {
                at,
                used,
                depth,
                parent: used,
            },
        ),
    }
}

// A list of n elements that stand alike. Their parent is the row before the first of theirs, or none if that is row 0.
// In the walk itself it would take registers from every other value.
#[cycle(values)]
#[inline(never)]
fn list_from(
    file: &[u8],
    codes: &[u32],
    rd: Readers,
    words: &mut [u32],
    grid: Grid,
    shared: u32,
    slot: Slot,
    n: u32,
    at: usize,
    used: u32,
    depth: u32,
) -> Result<Children, Refusal>
    requires { Begin file.now words.old grid at used × Known file.now codes.now rd
        × KnownNest file.now codes.now (Nest.Each slot n) }
    ensures { NestWalks grid file.now codes.now rd shared (Nest.Each slot n) at used depth used
        words.old words.new result }
{
    match slot {
        Slot::Object(declared) => objects_from(
            file, codes, rd, words, grid, shared, declared, n, at, used, depth,
        ),
        Slot::Raw(a) => raws_from(file, codes, rd, words, grid, shared, a, n, at, used, depth),
        Slot::Simple(_) => nested(
            file,
            codes,
            rd,
            words,
            grid,
            shared,
            Nest::Each(slot, n),
            Spot {
                at,
                used,
                depth,
                parent: used,
            },
        ),
    }
}

// n raw values of the type at `a`: all at once, if they are nullables that are seen to be there; else one after the other.
#[cycle(values)]
fn raws_from(
    file: &[u8],
    codes: &[u32],
    rd: Readers,
    words: &mut [u32],
    grid: Grid,
    shared: u32,
    a: usize,
    n: u32,
    at: usize,
    used: u32,
    depth: u32,
) -> Result<Children, Refusal>
    requires { Begin file.now words.old grid at used × Known file.now codes.now rd
        × KnownNest file.now codes.now (Nest.Each (Slot.Raw a) n) }
    ensures { NestWalks grid file.now codes.now rd shared (Nest.Each (Slot.Raw a) n) at used depth used
        words.old words.new result }
{
    match nullables::read(file, codes, words, grid, a, n, at, used, depth) {
        Some(reached) => Ok(Children { count: n, reached }),
        None => nested(
            file,
            codes,
            rd,
            words,
            grid,
            shared,
            Nest::Each(Slot::Raw(a), n),
            Spot {
                at,
                used,
                depth,
                parent: used,
            },
        ),
    }
}

// n objects declared as the type at `declared`: the first of them at once, as far as each is seen at one look, then the others.
#[cycle(values)]
fn objects_from(
    file: &[u8],
    codes: &[u32],
    rd: Readers,
    words: &mut [u32],
    grid: Grid,
    shared: u32,
    declared: usize,
    n: u32,
    at: usize,
    used: u32,
    depth: u32,
) -> Result<Children, Refusal>
    requires { Begin file.now words.old grid at used × Known file.now codes.now rd
        × KnownNest file.now codes.now (Nest.Each (Slot.Object declared) n) }
    ensures { NestWalks grid file.now codes.now rd shared (Nest.Each (Slot.Object declared) n) at used depth used
        words.old words.new result }
{
    let most = takeable(codes, declared, n, depth);
    let front = first_values::take(
        file,
        codes,
        &rd.targets,
        rd.count,
        declared,
        words,
        grid,
        most,
        at,
        used,
    );
    let row = used + front.count;
    if n <= front.count {
        return Ok(Children {
            count: front.count,
            reached: Reached {
                used: row,
                padding: front.padding,
                next: front.next,
            },
        });
    }
    let left = n - front.count;
    let rest = nested(
        file,
        codes,
        rd,
        words,
        grid,
        shared,
        Nest::Each(Slot::Object(declared), left),
        Spot {
            at: front.next,
            used: row,
            depth,
            parent: used,
        },
    )?;
    let reached = rest.reached;
    Ok(Children {
        count: n,
        reached: Reached {
            used: reached.used,
            padding: table::sum(front.padding, reached.padding),
            next: reached.next,
        },
    })
}

// Objects and raw values one after the other, as a nest says, with rows from `used` on, under a parent.
#[cycle(values)]
fn nested(
    file: &[u8],
    codes: &[u32],
    rd: Readers,
    words: &mut [u32],
    grid: Grid,
    shared: u32,
    nest: Nest,
    spot: Spot,
) -> Result<Children, Refusal>
    requires { Begin file.now words.old grid spot.at spot.used × Known file.now codes.now rd × KnownNest file.now codes.now nest }
    ensures { NestWalks grid file.now codes.now rd shared nest spot.at spot.used spot.depth spot.parent
        words.old words.new result }
{
    let mut stage = heads::nest::begin(nest);
    let mut next = spot.at;
    let mut row = spot.used;
    let mut sum = 0;
    // Kept: a turn goes on by what the nest says stands next, so no range fits.
    while (stage.next as u64) < stage.count {
        let slot = heads::nest::slot_at(nest, stage);
        let first = next;
        let position = objects::start::reader_position(file, next);
        let target = rd.targets[position];
        let here = Spot {
            at: next,
            used: row,
            ..spot
        };
        let step = value(
            file, codes, words, rd.count, target, grid, shared, slot, here,
        )?;
        let reached = match step {
            Stepped::Done(reached) => reached,
            Stepped::Nested {
                place,
                from,
                nest: inner,
                padding,
                id,
                next: below,
            } => {
                let h = Head {
                    row: RowNumber(row),
                    first: next,
                    parent: spot.parent,
                    detail: id.0,
                    padding,
                };
                raw(
                    file,
                    codes,
                    rd,
                    words,
                    grid,
                    shared,
                    place,
                    h,
                    from,
                    below,
                    inner,
                    spot.depth - 1,
                )?
            }
        };
        next = reached.next;
        row = reached.used;
        sum = table::sum(sum, reached.padding);
        stage = heads::nest::after(file, nest, stage, first);
    }
    Ok(Children {
        count: stage.next,
        reached: Reached {
            used: row,
            padding: sum,
            next,
        },
    })
}
