// How deep a transform may be, by its wavelet indices: document 01, refusal 2; document 02, (iii).
ghost use Rattle.std.specs.Prelude.{◌≡◌};
ghost use Rattle.wavelet.specs.Depth.{deep_filter, depth_limit, too_deep};

// LeGall, and Haar without and with a shift.
fn deep_filter(i: u32) -> bool
    ensures { result ≡ deep_filter i }
{
    matches!(i, 1 | 3 | 4)
}

// The most that the two depths may sum to, by the two wavelet indices.
#[tactic(auto, unfolding(crate::specs::Depth::depth_limit))]
fn depth_limit(i: u32, j: u32) -> u32
    ensures { result ≡ depth_limit i j }
{
    if deep_filter(i) && deep_filter(j) {
        8
    } else {
        5
    }
}

// Whether the two depths sum to more than the limit of the two wavelet indices. For the layer above.
pub fn too_deep(
    wavelet_index: u32,
    wavelet_index_ho: u32,
    dwt_depth: u32,
    dwt_depth_ho: u32,
) -> bool
    ensures { result ≡ too_deep wavelet_index wavelet_index_ho dwt_depth dwt_depth_ho }
{
    dwt_depth as u64 + dwt_depth_ho as u64 > depth_limit(wavelet_index_ho, wavelet_index) as u64
}
