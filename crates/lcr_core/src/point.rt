// Points of a picture, in pixels.

#[derive(Clone, Copy)]
pub struct Point {
    pub x: f32,
    pub y: f32,
}
