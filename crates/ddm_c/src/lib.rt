// The public functions for C and Rust callers: numbers and slices only. c/ddm.h is their header. Each returns a refusal's
// number, 0 for none, and writes its place and its values to the slot `result`. A slot that is too short is refused with 11
// before anything else is looked at, and nothing is written then. C passes each list and number by itself, so what the library takes as one
// value comes here part by part.
#![tactic(auto)]

ghost use Rattle.std.specs.Prelude.{◌≡◌};
ghost use Rattle.definition.specs.Refusals.{stretch_verdict};
ghost use Rattle.definition.specs.Outcome.{number_of, root_answer, size_answer, sizes_answer};
ghost use Rattle.tree_answer.specs.Answers.{lists_of, records_of};
ghost use Rattle.slots.specs.Settings.{settings_from};
ghost use Rattle.slots.specs.Slots.{value_slot, sizes_slot, version_number};
ghost use Rattle.table_checks.specs.Tables.{table_of};
ghost use Rattle.slots.specs.Told.{Told, QuotasTold, SampleTold, BuildTold, StoreTold, LoadTold, AddTold, RetireTold, CloseTold, SlotsTold};

use points::Points;
use quotas::Seated;
use refusal::{Refusal, Report};
use table::{Head, Table, Wells};
use tree_lists::{Records, Room, TreeLists, TreeRead};

// The version as one number: major * 10000 + minor * 100 + patch.
#[unsafe(no_mangle)]
pub extern "C" fn ddm_version() -> usize
    ensures { result ≡ version_number 0 9 0 }
{
    slots::version()
}

// The square root, rounded to the nearest value. Refusal 15.
#[unsafe(no_mangle)]
pub extern "C" fn ddm_square_root(x: f64, res: &mut [f64]) -> usize
    ensures { Told 1 value_slot res.old res.new result (root_answer x) }
{
    if res.is_empty() {
        return Refusal::ShortList.number();
    }
    slots::put_value(res, root::square_root(x))
}

// The size of the next level, of a active rows at the threshold c with r reductions left. Refusals 4, 8, 14, 9.
#[unsafe(no_mangle)]
pub extern "C" fn ddm_level_size(a: usize, c: u32, r: u32, res: &mut [usize]) -> usize
    ensures { Told 1 value_slot res.old res.new result (size_answer a c r) }
{
    if res.is_empty() {
        return Refusal::ShortList.number();
    }
    slots::put_value(res, level_sizes::get_num_level_coarse_points(a, c, r))
}

// The quotas of leaves of these sizes for `wanted` seats. The slot: entries written, seats. Refusals 8, 11.
#[unsafe(no_mangle)]
pub extern "C" fn ddm_quotas(
    sizes: &[usize],
    wanted: usize,
    quotas: &mut [usize],
    wholes: &mut [usize],
    res: &mut [usize],
) -> usize
    ensures { QuotasTold sizes.now wanted quotas.old quotas.new wholes.old wholes.new
        res.old res.new result }
{
    if res.len() < slots::PAIR {
        return Refusal::ShortList.number();
    }
    let answer = quotas::get_domain_coarse_quotas(sizes, wanted, quotas, wholes);
    let told = Report::of(answer);
    let Seated { leaves, seats } = told.value;
    stretches::put_values(res, 0, &[leaves, seats]);
    told.number
}

// Farthest point sampling: `wanted` rows from the row `seed` on. The slot: place, rows written. The slot `cover`, of one entry:
// how far the worst left-out row is from its nearest chosen one. Refusals 1, 6, 7, 8, 13, 11, 10.
#[unsafe(no_mangle)]
pub extern "C" fn ddm_sample(
    points: &[f64],
    dimensions: usize,
    wanted: usize,
    seed: usize,
    out: &mut [usize],
    floats: &mut [f64],
    wholes: &mut [usize],
    cover: &mut [f64],
    res: &mut [usize],
) -> usize
    ensures { SampleTold dimensions points.now wanted seed out.old out.new
        floats.old floats.new wholes.old wholes.new cover.old cover.new res.old res.new result }
{
    if cover.is_empty() {
        return Refusal::ShortList.number();
    }
    if res.len() < slots::PAIR {
        return Refusal::ShortList.number();
    }
    let points = Points {
        coordinates: points,
        dimensions,
    };
    let mut room = Room { floats, wholes };
    let answer = sampling::farthest_point_sampling(points, wanted, seed, out, &mut room);
    let told = Report::of(answer);
    cover[0] = told.value.cover;
    stretches::put_values(res, 0, &[told.place, told.value.rows]);
    told.number
}

// The test of a domain row's stretch against the length of its list: 12 where start plus count ends past it.
#[unsafe(no_mangle)]
pub extern "C" fn ddm_row_test(start: usize, count: usize, list_len: usize) -> usize
    ensures { result ≡ number_of (stretch_verdict start count list_len) }
{
    Report::of(leaf_rows::stretch_test(list_len, start, count)).number
}

// The lengths of the lists that a build over n points is to be lent. The slot: level points, internals, domain rows, boxes, borrowed
// rows, floats, whole numbers, cuts, planes. Refusals 1, 5, 6, 8.
#[unsafe(no_mangle)]
pub extern "C" fn ddm_build_sizes(
    n: usize,
    dimensions: usize,
    neighbours: u32,
    res: &mut [usize],
) -> usize
    ensures { Told 9 sizes_slot res.old res.new result (sizes_answer dimensions n neighbours) }
{
    if res.len() < slots::SIZES {
        return Refusal::ShortList.number();
    }
    slots::put_sizes(res, build_sizes::build_sizes(n, dimensions, neighbours))
}

// Builds the tree, and writes the records of its cuts: an axis, or 3 plus a leaf's number, to `cuts`, and the plane or +0 to `planes`. The slot:
// place, levels, rows of levels 0 to 3, domains of levels 0 to 3. Refusals 1 to 11.
#[unsafe(no_mangle)]
pub extern "C" fn ddm_build(
    points: &[f64],
    dimensions: usize,
    leaf: u32,
    neighbours: u32,
    factor: u32,
    policy: u32,
    threshold: u32,
    level_points: &mut [usize],
    internals: &mut [usize],
    domains: &mut [usize],
    boxes: &mut [f64],
    borrowed: &mut [usize],
    floats: &mut [f64],
    wholes: &mut [usize],
    cuts: &mut [usize],
    planes: &mut [f64],
    res: &mut [usize],
) -> usize
    ensures { BuildTold (settings_from dimensions leaf neighbours factor policy threshold) points.now
        (lists_of level_points.old internals.old domains.old boxes.old borrowed.old)
        (lists_of level_points.new internals.new domains.new boxes.new borrowed.new)
        floats.old floats.new wholes.old wholes.new
        (records_of cuts.old planes.old) (records_of cuts.new planes.new) res.old res.new result }
{
    if res.len() < slots::TREE {
        return Refusal::ShortList.number();
    }
    let params = slots::params_of(leaf, neighbours, factor, policy, threshold);
    let points = Points {
        coordinates: points,
        dimensions,
    };
    let mut lists = TreeLists {
        level_points,
        internals,
        domains,
        boxes,
        borrowed,
    };
    let mut room = Room { floats, wholes };
    let mut records = Records { cuts, planes };
    let tree = ddm::build(points, params, &mut lists, &mut room, &mut records);
    slots::put_tree(res, tree)
}

// The same build, depth first. The slot is that of a build. Refusals 1 to 11.
#[unsafe(no_mangle)]
pub extern "C" fn ddm_build_depth_first(
    points: &[f64],
    dimensions: usize,
    leaf: u32,
    neighbours: u32,
    factor: u32,
    policy: u32,
    threshold: u32,
    level_points: &mut [usize],
    internals: &mut [usize],
    domains: &mut [usize],
    boxes: &mut [f64],
    borrowed: &mut [usize],
    floats: &mut [f64],
    wholes: &mut [usize],
    cuts: &mut [usize],
    planes: &mut [f64],
    res: &mut [usize],
) -> usize
    ensures { BuildTold (settings_from dimensions leaf neighbours factor policy threshold) points.now
        (lists_of level_points.old internals.old domains.old boxes.old borrowed.old)
        (lists_of level_points.new internals.new domains.new boxes.new borrowed.new)
        floats.old floats.new wholes.old wholes.new
        (records_of cuts.old planes.old) (records_of cuts.new planes.new) res.old res.new result }
{
    if res.len() < slots::TREE {
        return Refusal::ShortList.number();
    }
    let params = slots::params_of(leaf, neighbours, factor, policy, threshold);
    let points = Points {
        coordinates: points,
        dimensions,
    };
    let mut lists = TreeLists {
        level_points,
        internals,
        domains,
        boxes,
        borrowed,
    };
    let mut room = Room { floats, wholes };
    let mut records = Records { cuts, planes };
    let tree = ddm::build_depth_first(points, params, &mut lists, &mut room, &mut records);
    slots::put_tree(res, tree)
}

// Writes the tree that stands in the lists to the bytes of a file. `tree` is the slot that its build or load wrote. The slot `result`: place,
// bytes written. Refusals 1 to 11 and 20.
#[unsafe(no_mangle)]
pub extern "C" fn ddm_store(
    points: &[f64],
    dimensions: usize,
    leaf: u32,
    neighbours: u32,
    factor: u32,
    policy: u32,
    threshold: u32,
    tree: &[usize],
    level_points: &[usize],
    internals: &[usize],
    domains: &[usize],
    boxes: &[f64],
    borrowed: &[usize],
    file: &mut [u8],
    res: &mut [usize],
) -> usize
    ensures { StoreTold (settings_from dimensions leaf neighbours factor policy threshold) points.now tree.now
        (lists_of level_points.now internals.now domains.now boxes.now borrowed.now)
        file.old file.new res.old res.new result }
{
    if res.len() < slots::PAIR {
        return Refusal::ShortList.number();
    }
    if tree.len() < slots::TREE {
        return slots::put_placed(res, Err(Refusal::ShortList));
    }
    let params = slots::params_of(leaf, neighbours, factor, policy, threshold);
    let counts = slots::counts_from(tree);
    let points = Points {
        coordinates: points,
        dimensions,
    };
    let lists = TreeRead {
        level_points,
        internals,
        domains,
        boxes,
        borrowed,
    };
    let stored = store::store_tree(points, params, counts, lists, file);
    slots::put_placed(res, stored)
}

// Hands out the tree that stands in the bytes of a file, for these points and settings. The slot is that of a build. Refusals 1 to 11,
// 18, 19 and 20.
#[unsafe(no_mangle)]
pub extern "C" fn ddm_load(
    points: &[f64],
    dimensions: usize,
    leaf: u32,
    neighbours: u32,
    factor: u32,
    policy: u32,
    threshold: u32,
    file: &[u8],
    level_points: &mut [usize],
    internals: &mut [usize],
    domains: &mut [usize],
    boxes: &mut [f64],
    borrowed: &mut [usize],
    res: &mut [usize],
) -> usize
    ensures { LoadTold (settings_from dimensions leaf neighbours factor policy threshold) points.now file.now
        (lists_of level_points.old internals.old domains.old boxes.old borrowed.old)
        (lists_of level_points.new internals.new domains.new boxes.new borrowed.new)
        res.old res.new result }
{
    if res.len() < slots::TREE {
        return Refusal::ShortList.number();
    }
    let params = slots::params_of(leaf, neighbours, factor, policy, threshold);
    let points = Points {
        coordinates: points,
        dimensions,
    };
    let mut lists = TreeLists {
        level_points,
        internals,
        domains,
        boxes,
        borrowed,
    };
    let tree = load::load_tree(points, params, file, &mut lists);
    slots::put_tree(res, tree)
}

// Adds a point to the table whose head, its slot count and its live count, stands where the caller keeps it. The slot: place, slot taken.
// Refusals 1, 11, 27, 7, 10, 21.
#[unsafe(no_mangle)]
pub extern "C" fn ddm_add(
    head: &mut [usize; 2],
    flags: &mut [u8],
    coordinates: &mut [f64],
    dimensions: usize,
    point: &[f64],
    res: &mut [usize],
) -> usize
    ensures { AddTold dimensions head.old head.new flags.old flags.new
        coordinates.old coordinates.new point.now res.old res.new result }
{
    if res.len() < slots::PAIR {
        return Refusal::ShortList.number();
    }
    let mut counters = slots::head_from(head);
    let mut wells = Wells {
        flags,
        coordinates,
        dimensions,
    };
    let answer = table::add(&mut counters, &mut wells, point);
    slots::put_head(head, counters);
    slots::put_placed(res, answer)
}

// Retires a slot of the table. No refusal names a place, and nothing is answered, so there is no slot. Refusals 1, 11, 27, 22.
#[unsafe(no_mangle)]
pub extern "C" fn ddm_retire(
    head: &mut [usize; 2],
    flags: &mut [u8],
    coordinates: &[f64],
    dimensions: usize,
    slot: usize,
) -> usize
    ensures { RetireTold dimensions head.old head.new flags.old flags.new coordinates.now slot result }
{
    let mut counters = slots::head_from(head);
    let points = Points {
        coordinates,
        dimensions,
    };
    let answer = table::retire(&mut counters, flags, points, slot);
    slots::put_head(head, counters);
    Report::of(answer).number
}

// Closes the gaps of the table: the live wells move down, in order, and `rename` says from which slot to which. The slot: place, new slot
// count. Refusals 1, 11, 27.
#[unsafe(no_mangle)]
pub extern "C" fn ddm_close(
    head: &mut [usize; 2],
    flags: &mut [u8],
    coordinates: &mut [f64],
    dimensions: usize,
    rename: &mut [usize],
    res: &mut [usize],
) -> usize
    ensures { CloseTold dimensions head.old head.new flags.old flags.new
        coordinates.old coordinates.new rename.old rename.new res.old res.new result }
{
    if res.len() < slots::PAIR {
        return Refusal::ShortList.number();
    }
    let mut counters = slots::head_from(head);
    let mut wells = Wells {
        flags,
        coordinates,
        dimensions,
    };
    let answer = table::close(&mut counters, &mut wells, rename);
    slots::put_head(head, counters);
    slots::put_placed(res, answer)
}

// Builds the tree over the live slots of a table: rows in every list are slots, and n is the live count. The slot is that of a build.
// Refusals 27, then 1 to 6, 9, 11, 10.
#[unsafe(no_mangle)]
pub extern "C" fn ddm_build_slots(
    slots: usize,
    live: usize,
    flags: &[u8],
    coordinates: &[f64],
    dimensions: usize,
    leaf: u32,
    neighbours: u32,
    factor: u32,
    policy: u32,
    threshold: u32,
    level_points: &mut [usize],
    internals: &mut [usize],
    domains: &mut [usize],
    boxes: &mut [f64],
    borrowed: &mut [usize],
    floats: &mut [f64],
    wholes: &mut [usize],
    cuts: &mut [usize],
    planes: &mut [f64],
    res: &mut [usize],
) -> usize
    ensures { SlotsTold (settings_from dimensions leaf neighbours factor policy threshold) (table_of slots live flags.now coordinates.now)
        (lists_of level_points.old internals.old domains.old boxes.old borrowed.old)
        (lists_of level_points.new internals.new domains.new boxes.new borrowed.new)
        floats.old floats.new wholes.old wholes.new
        (records_of cuts.old planes.old) (records_of cuts.new planes.new) res.old res.new result }
{
    if res.len() < slots::TREE {
        return Refusal::ShortList.number();
    }
    let params = slots::params_of(leaf, neighbours, factor, policy, threshold);
    let table = Table {
        head: Head { slots, live },
        flags,
        points: Points {
            coordinates,
            dimensions,
        },
    };
    let mut lists = TreeLists {
        level_points,
        internals,
        domains,
        boxes,
        borrowed,
    };
    let mut room = Room { floats, wholes };
    let mut records = Records { cuts, planes };
    let tree = table_build::build_slots(table, params, &mut lists, &mut room, &mut records);
    slots::put_tree(res, tree)
}
