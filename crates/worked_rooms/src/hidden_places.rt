// Which places boxes hide from each other. The expected values come from another program, in fractions.
use room_patches::BoxSpec;
use std::process::Abort;
use visibility::are_hidden;

// Where a box begins and ends along x, y and z.
type Bounds = [u32; 6];

// Some boxes, two places, and whether the boxes hide these from each other.
type Places = ([Bounds; 2], [i32; 3], [i32; 3], bool);

fn box_of(bounds: &Bounds) -> BoxSpec {
    let [x0, x1, y0, y1, z0, z1] = *bounds;
    BoxSpec {
        x0,
        x1,
        y0,
        y1,
        z0,
        z1,
        nx: 1,
        ny: 1,
        nz: 1,
        reflectance: 0,
    }
}

const CUBE: Bounds = [400, 600, 400, 600, 400, 600];

const TABLE_TOP: Bounds = [200, 1_000, 300, 700, 700, 720];

const PARTITION: Bounds = [500, 501, 0, 1_000, 0, 800];

const LEFT_HALF: Bounds = [400, 500, 400, 600, 400, 600];

const RIGHT_HALF: Bounds = [500, 600, 400, 600, 400, 600];

const ROOM: Bounds = [0, 1_000, 0, 1_000, 0, 1_000];

const INSIDE_OUT: Bounds = [600, 400, 400, 600, 400, 600];

const NONE: Bounds = [0; 6];

#[rattlefmt::skip]
const PLACES: [Places; 59] = [
    // Through the middle of two faces.
    ([CUBE, NONE], [0, 1_000, 1_000], [2_000, 1_000, 1_000], true),
    // Ends on a face.
    ([CUBE, NONE], [0, 1_000, 1_000], [800, 1_000, 1_000], false),
    // Ends just inside.
    ([CUBE, NONE], [0, 1_000, 1_000], [801, 1_000, 1_000], true),
    // Ends before the face.
    ([CUBE, NONE], [0, 1_000, 1_000], [799, 1_000, 1_000], false),
    // Along a face.
    ([CUBE, NONE], [0, 800, 1_000], [2_000, 800, 1_000], false),
    // Just inside that face.
    ([CUBE, NONE], [0, 801, 1_000], [2_000, 801, 1_000], true),
    // Along the far face.
    ([CUBE, NONE], [0, 1_200, 1_000], [2_000, 1_200, 1_000], false),
    // Just inside the far face.
    ([CUBE, NONE], [0, 1_199, 1_000], [2_000, 1_199, 1_000], true),
    // Along an edge.
    ([CUBE, NONE], [0, 800, 800], [2_000, 800, 800], false),
    // Just inside that edge.
    ([CUBE, NONE], [0, 801, 801], [2_000, 801, 801], true),
    // From corner to corner.
    ([CUBE, NONE], [800, 800, 800], [1_200, 1_200, 1_200], true),
    // Through both corners.
    ([CUBE, NONE], [0, 0, 0], [2_000, 2_000, 2_000], true),
    // Ends in a corner.
    ([CUBE, NONE], [0, 0, 0], [800, 800, 800], false),
    // Ends just inside a corner.
    ([CUBE, NONE], [0, 0, 0], [801, 801, 801], true),
    // Touches an edge from outside.
    ([CUBE, NONE], [0, 1_600, 1_000], [1_600, 0, 1_000], false),
    // Past that edge, within.
    ([CUBE, NONE], [0, 1_601, 1_000], [1_601, 0, 1_000], true),
    // Before that edge, without.
    ([CUBE, NONE], [0, 1_599, 1_000], [1_599, 0, 1_000], false),
    // Touches an edge, short.
    ([CUBE, NONE], [400, 1_200, 1_000], [1_200, 400, 1_000], false),
    // Cuts off a corner.
    ([CUBE, NONE], [600, 800, 600], [1_000, 1_200, 1_000], true),
    // Touches an edge at its middle.
    ([CUBE, NONE], [700, 900, 900], [900, 700, 900], false),
    // Just inside that edge.
    ([CUBE, NONE], [701, 900, 900], [901, 700, 900], true),
    // No way at all, inside.
    ([CUBE, NONE], [1_000, 1_000, 1_000], [1_000, 1_000, 1_000], true),
    // No way at all, on a face.
    ([CUBE, NONE], [800, 1_000, 1_000], [800, 1_000, 1_000], false),
    // No way at all, outside.
    ([CUBE, NONE], [0, 0, 0], [0, 0, 0], false),
    // From inside.
    ([CUBE, NONE], [1_000, 1_000, 1_000], [2_000, 2_000, 2_000], true),
    // From inside to inside.
    ([CUBE, NONE], [1_000, 1_000, 1_000], [1_100, 1_000, 1_000], true),
    // From face to face.
    ([CUBE, NONE], [800, 1_000, 1_000], [1_200, 1_000, 1_000], true),
    // Away from a face.
    ([CUBE, NONE], [800, 1_000, 1_000], [0, 1_000, 1_000], false),
    // Within a face.
    ([CUBE, NONE], [800, 900, 1_000], [800, 1_100, 1_000], false),
    // Up from the top.
    ([CUBE, NONE], [1_000, 1_000, 1_200], [1_000, 1_000, 2_000], false),
    // Up to the bottom.
    ([CUBE, NONE], [1_000, 1_000, 0], [1_000, 1_000, 800], false),
    // Into the bottom.
    ([CUBE, NONE], [1_000, 1_000, 0], [1_000, 1_000, 801], true),
    // Against the axis.
    ([CUBE, NONE], [2_000, 1_000, 1_000], [0, 1_000, 1_000], true),
    // Against all axes.
    ([CUBE, NONE], [2_000, 2_000, 2_000], [0, 0, 0], true),
    // Across, one axis against.
    ([CUBE, NONE], [2_000, 0, 1_000], [0, 2_000, 1_000], true),
    // Beyond the box, away.
    ([CUBE, NONE], [1_300, 1_000, 1_000], [2_000, 1_000, 1_000], false),
    // Under a table to the ceiling.
    ([TABLE_TOP, NONE], [1_000, 1_000, 1_000], [1_000, 1_000, 2_000], true),
    // From the underside.
    ([TABLE_TOP, NONE], [1_000, 1_000, 1_400], [1_000, 1_000, 2_000], true),
    // From the top of a table.
    ([TABLE_TOP, NONE], [1_000, 1_000, 1_440], [1_000, 1_000, 2_000], false),
    // Past the table's edge.
    ([TABLE_TOP, NONE], [300, 1_000, 1_000], [500, 1_000, 1_441], true),
    // Through its thickness.
    ([TABLE_TOP, NONE], [0, 1_000, 1_439], [2_000, 1_000, 1_401], true),
    // Along its top.
    ([TABLE_TOP, NONE], [0, 1_000, 1_440], [2_000, 1_000, 1_440], false),
    // Through a thin partition.
    ([PARTITION, NONE], [0, 1_000, 500], [2_000, 1_000, 500], true),
    // Along one side of it.
    ([PARTITION, NONE], [1_000, 0, 500], [1_000, 2_000, 500], false),
    // Within it.
    ([PARTITION, NONE], [1_001, 0, 500], [1_001, 2_000, 500], true),
    // Along the other side.
    ([PARTITION, NONE], [1_002, 0, 500], [1_002, 2_000, 500], false),
    // Over its top edge.
    ([PARTITION, NONE], [0, 1_000, 1_600], [2_000, 1_000, 1_600], false),
    // Its top edge met in its middle.
    ([PARTITION, NONE], [0, 1_000, 1_500], [2_000, 1_000, 1_700], false),
    // Just under its top edge.
    ([PARTITION, NONE], [0, 1_000, 1_599], [2_000, 1_000, 1_600], true),
    // Between two boxes that touch.
    ([LEFT_HALF, RIGHT_HALF], [1_000, 0, 1_000], [1_000, 2_000, 1_000], false),
    // Across the face where they touch.
    ([LEFT_HALF, RIGHT_HALF], [1_000, 0, 1_000], [1_001, 2_000, 1_000], true),
    // Through both.
    ([LEFT_HALF, RIGHT_HALF], [0, 1_000, 1_000], [2_000, 1_000, 1_000], true),
    // To the first.
    ([LEFT_HALF, RIGHT_HALF], [0, 1_000, 1_000], [800, 1_000, 1_000], false),
    // Only the second hides.
    ([PARTITION, CUBE], [1_010, 1_000, 1_000], [2_000, 1_000, 1_000], true),
    // Neither hides.
    ([CUBE, PARTITION], [0, 0, 1_700], [2_000, 2_000, 1_700], false),
    // Only the second, below the first.
    ([CUBE, PARTITION], [0, 0, 300], [2_000, 200, 300], true),
    // The whole room is a box.
    ([ROOM, NONE], [0, 0, 0], [2_000, 2_000, 2_000], true),
    // Its face is the wall.
    ([ROOM, NONE], [0, 0, 0], [0, 2_000, 2_000], false),
    // Ends before it begins.
    ([INSIDE_OUT, NONE], [0, 1_000, 1_000], [2_000, 1_000, 1_000], false),
];

// Whether the boxes hide two places from each other.
fn hide(rt: &impl Abort, boxes: &[BoxSpec], from: [i32; 3], to: [i32; 3]) -> bool {
    let [x, y, z] = from;
    assert!(rt; 0 <= x && x <= 200_000);
    assert!(rt; 0 <= y && y <= 200_000);
    assert!(rt; 0 <= z && z <= 200_000);
    let [u, v, w] = to;
    assert!(rt; 0 <= u && u <= 200_000);
    assert!(rt; 0 <= v && v <= 200_000);
    assert!(rt; 0 <= w && w <= 200_000);
    are_hidden(boxes, [x, y, z], [u, v, w])
}

fn assert_hidden(rt: &impl Abort, places: &Places) {
    let ([first, second], from, to, is_hidden) = *places;
    let boxes = [box_of(&first), box_of(&second)];
    assert_eq!(rt; hide(rt, &boxes, from, to), is_hidden);
    assert_eq!(rt; hide(rt, &boxes, to, from), is_hidden);
}

#[test]
fn places_are_hidden_by_what_lies_inside(rt: HostRuntime) {
    for places in &PLACES {
        assert_hidden(&rt, places);
    }
}
