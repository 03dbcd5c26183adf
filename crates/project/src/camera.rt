// The axes of the camera, and directions on them.
ghost use Rattle.std.specs.Prelude.{◌≡◌, cond, [], ◌∷◌};
ghost use Rattle.solve.specs.Vector.{at, row, entry, dot, norm, normalised, combined, negated};
ghost use Rattle.project.specs.Camera.{east, north, boresight, camera_rows, tan_basis, tan_project_vec, narrowed_row, rotation_from_theta_crval, mirrored, field_of_view, wcs_to_rotation};

use crate::{Plane, Sky, WcsRotation};
use angles::{atan, sin_cos};
use rounding::{narrow, sqrt, widen};

#[tactic(auto, unfolding(solve::specs::Vector::dot))]
pub fn dot(a: [f64; 3], b: [f64; 3]) -> f64
    ensures { result ≡ dot a b }
{
    a[0] * b[0] + a[1] * b[1] + a[2] * b[2]
}

#[tactic(auto, unfolding(solve::specs::Vector::norm))]
fn norm(v: [f64; 3]) -> f64
    ensures { result ≡ norm v }
{
    sqrt(dot(v, v))
}

#[tactic(auto, unfolding(solve::specs::Vector::normalised))]
fn normalised(v: [f64; 3]) -> [f64; 3]
    ensures { result ≡ normalised v }
{
    let n = norm(v);
    v.map(|x| x / n)
}

// a * s + b * t
#[tactic(auto, unfolding(solve::specs::Vector::combined))]
fn combined(a: [f64; 3], s: f64, b: [f64; 3], t: f64) -> [f64; 3]
    ensures { result ≡ combined a s b t }
{
    [
        a[0] * s + b[0] * t,
        a[1] * s + b[1] * t,
        a[2] * s + b[2] * t,
    ]
}

#[tactic(auto, unfolding(solve::specs::Vector::negated))]
fn negated(v: [f64; 3]) -> [f64; 3]
    ensures { result ≡ negated v }
{
    v.map(|x| -x)
}

// The tangent plane at a point of the sky: its axes to the east and to the north, and the boresight.
#[tactic(auto, unfolding(crate::specs::Camera::east, crate::specs::Camera::north, crate::specs::Camera::boresight))]
pub fn plane_at(crval: Sky) -> [[f64; 3]; 3]
    ensures { result ≡ east crval.ra ∷ north crval.ra crval.dec ∷ boresight crval.ra crval.dec ∷ [] }
{
    let a = sin_cos(crval.ra);
    let d = sin_cos(crval.dec);
    [
        [-a.sin, a.cos, 0.0],
        [-d.sin * a.cos, -d.sin * a.sin, d.cos],
        [d.cos * a.cos, d.cos * a.sin, d.sin],
    ]
}

// The direction to a point of the sky.
pub fn boresight_of(crval: Sky) -> [f64; 3]
    ensures { result ≡ boresight crval.ra crval.dec }
{
    plane_at(crval)[2]
}

// The camera's axes as rows: x, y and the boresight.
#[tactic(auto, unfolding(crate::specs::Camera::camera_rows))]
pub fn camera_rows_f64(theta: f64, crval: Sky) -> [[f64; 3]; 3]
    ensures { result ≡ camera_rows theta crval.ra crval.dec }
{
    let [east, north, boresight] = plane_at(crval);
    let t = sin_cos(theta);
    let x = normalised(combined(east, t.cos, north, t.sin));
    let y = normalised(combined(east, -t.sin, north, t.cos));
    [x, y, boresight]
}

// The basis of the tangent plane at a point of the sky: the camera's axes without roll.
#[tactic(auto, unfolding(crate::specs::Camera::tan_basis))]
pub fn tan_basis(crval: Sky) -> [[f64; 3]; 3]
    ensures { result ≡ tan_basis crval.ra crval.dec }
{
    camera_rows_f64(0.0, crval)
}

// A direction's components in f64, the same values.
// Stays (no plainer): it is one call of the library's `map`, as `narrowed_row` below is with the narrowing.
pub fn widened(v: [f32; 3]) -> [f64; 3]
    ensures { result ≡ at v 0 ∷ at v 1 ∷ at v 2 ∷ [] }
{
    v.map(|x| widen(x))
}

// Where a direction lies on the tangent plane of a basis, if it lies in front of it. It is asked of every direction in every pass, so the
// denominator is looked at first.
// Stays (no plainer): `divided` takes both numerators, which are not reckoned here for a direction on or behind the plane.
#[tactic(auto, unfolding(crate::specs::Camera::tan_project_vec))]
pub fn tan_project_vec(v: [f32; 3], basis: [[f64; 3]; 3], cut: f64) -> Option<Plane>
    ensures { result ≡ tan_project_vec cut v basis }
{
    let [east, north, boresight] = basis;
    let w = widened(v);
    let denom = dot(boresight, w);
    if denom <= cut {
        return None;
    }
    Some(Plane {
        xi: dot(east, w) / denom,
        eta: dot(north, w) / denom,
    })
}

#[tactic(auto, unfolding(crate::specs::Camera::narrowed_row))]
fn narrowed_row(v: [f64; 3]) -> [f32; 3]
    ensures { result ≡ narrowed_row v }
{
    v.map(|x| narrow(x))
}

// The same of each row of a matrix.
fn narrowed_rows(m: [[f64; 3]; 3]) -> [[f32; 3]; 3]
    ensures { result ≡ narrowed_row (row m 0) ∷ narrowed_row (row m 1) ∷ narrowed_row (row m 2) ∷ [] }
{
    let [x, y, z] = m;
    [narrowed_row(x), narrowed_row(y), narrowed_row(z)]
}

// The rotation from the sky to the camera, in f32.
#[tactic(auto, unfolding(crate::specs::Camera::rotation_from_theta_crval))]
pub fn rotation_from_theta_crval(theta: f64, crval: Sky) -> [[f32; 3]; 3]
    ensures { result ≡ rotation_from_theta_crval theta crval.ra crval.dec }
{
    narrowed_rows(camera_rows_f64(theta, crval))
}

// A mirrored image has a negative determinant.
#[tactic(auto, unfolding(crate::specs::Camera::mirrored))]
fn mirrored(cd: [[f64; 2]; 2]) -> bool
    ensures { result ≡ mirrored cd }
{
    cd[0][0] * cd[1][1] - cd[0][1] * cd[1][0] < 0.0
}

// The camera's x axis before it is normalised, from the plane's axes; negated for a mirrored image.
fn raw_x(cd: [[f64; 2]; 2], e: [f64; 3], n: [f64; 3]) -> [f64; 3]
    ensures { result ≡ cond (mirrored cd) (negated (combined e (entry cd 0 0) n (entry cd 1 0)))
        (combined e (entry cd 0 0) n (entry cd 1 0)) }
{
    let v = combined(e, cd[0][0], n, cd[1][0]);
    if mirrored(cd) { negated(v) } else { v }
}

// 2 atan(ps_x * W / 2), in f32.
#[tactic(auto, unfolding(crate::specs::Camera::field_of_view))]
fn field_of_view(ps_x: f64, width: u32) -> f32
    ensures { result ≡ field_of_view ps_x width }
{
    narrow(2.0 * atan(ps_x * (width as f64) / 2.0))
}

// The rotation, the field of view and the mirror of an image, from its matrix cd and the boresight.
pub fn wcs_to_rotation(cd: [[f64; 2]; 2], crval: Sky, image_width: u32) -> WcsRotation
    ensures { result ≡ wcs_to_rotation cd crval.ra crval.dec image_width }
{
    let [east, north, boresight] = plane_at(crval);
    let x = raw_x(cd, east, north);
    let y = combined(east, cd[0][1], north, cd[1][1]);
    WcsRotation {
        rotation: narrowed_rows([normalised(x), normalised(y), boresight]),
        fov: field_of_view(norm(x), image_width),
        parity_flip: mirrored(cd),
    }
}
