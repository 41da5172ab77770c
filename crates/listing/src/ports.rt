// Where the ports of a context stand.
ghost use Rattle.std.specs.Prelude.{◌≡◌, map, ℕ, ◌<◌, ◌≤◌, length, take, get_or};
ghost use Rattle.rows.specs.Format.{most_links};
ghost use Rattle.rows.specs.Limits.{sheet_link_limit};
ghost use Rattle.rows.specs.Packed.{padded};
ghost use Rattle.placing.specs.Net.{Range};
ghost use Rattle.listing.specs.Writing.{stands_at};

use rows::Sheet;

// The link that figure link x goes to, on a sheet with this many links, or the link beyond them that is x's own.
fn stands_on(sheet_links: usize, links_to: &[u16], x: u16) -> u16
    requires { (sheet_links ≤ sheet_link_limit) × (length links_to.now ≡ sheet_link_limit) × Range sheet_link_limit x }
    ensures { result ≡ stands_at sheet_links links_to.now x }
{
    let i = x as usize - 1;
    if links_to[i] as usize > sheet_links {
        return sheet_links as u16 + x;
    }
    links_to[i]
}

// The links where the first `count` ports stand.
pub fn ports_of(
    sheet_links: usize,
    links_to: &[u16],
    links: [u16; Sheet::MOST_LINKS],
    count: usize,
) -> [u16; Sheet::MOST_LINKS]
    requires { (sheet_links ≤ sheet_link_limit) × (length links_to.now ≡ sheet_link_limit) × (count ≤ most_links) × ((k : ℕ) → k < count → Range sheet_link_limit (get_or links k 0)) }
    ensures { result ≡ padded most_links 0 (map (stands_at sheet_links links_to.now) (take count links)) }
{
    let mut ports = [0u16; Sheet::MOST_LINKS];
    for k in 0..count {
        ports[k] = stands_on(sheet_links, links_to, links[k]);
    }
    ports
}
