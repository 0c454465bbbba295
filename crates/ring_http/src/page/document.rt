//! Made by tools/pages from crates/ring_http/page/index.html: change it there.

/// Its text.
pub(crate) const TEXT: &str = "<!doctype html>
<html lang=\"en\">
<head>
<meta charset=\"utf-8\">
<meta name=\"viewport\" content=\"width=device-width, initial-scale=1\">
<meta name=\"color-scheme\" content=\"light dark\">
<meta name=\"referrer\" content=\"no-referrer\">
<title>ringd</title>
<!-- there is no icon: without this line browsers ask for /favicon.ico -->
<link rel=\"icon\" href=\"#\">
<link rel=\"stylesheet\" href=\"app.css\">
<script type=\"module\" src=\"app.js\"></script>
</head>
<body data-service=\"starting\" data-list=\"unknown\" data-view=\"list\">
<button class=\"skip\" id=\"skip\" type=\"button\">Skip to the group</button>

<header class=\"top\">
  <h1 class=\"brand\">
    <a href=\"#/\">
      <svg class=\"logo\" viewBox=\"0 0 32 32\" aria-hidden=\"true\">
        <circle cx=\"16\" cy=\"19\" r=\"10\"/>
        <path d=\"M10 11 L8 2 L13 6 L16 1 L19 6 L24 2 L22 11 Z\"/>
      </svg>
      ringd
    </a>
  </h1>
  <p class=\"service\" id=\"service\" role=\"status\" tabindex=\"-1\">Connecting</p>
</header>

<p class=\"banner\" id=\"banner\" role=\"alert\" hidden></p>
<nav class=\"banner others\" id=\"others\" aria-labelledby=\"others-title\" hidden>
  <p id=\"others-title\">Open this page at another address of the service:</p>
  <ul id=\"addresses\"></ul>
</nav>
<noscript><p class=\"banner\">This page needs JavaScript. The same as JSON is at /v1/groups.</p></noscript>

<div class=\"columns\">
  <nav class=\"groups\" aria-labelledby=\"groups-title\">
    <h2 id=\"groups-title\">Groups</h2>
    <p class=\"count\" id=\"count\" role=\"status\"></p>
    <ul id=\"groups\"></ul>
    <p class=\"none\">No groups yet. The line <code>create jobs chang</code> creates one.</p>
  </nav>

  <main id=\"main\" tabindex=\"-1\" aria-labelledby=\"name\">
    <a class=\"back\" href=\"#/\">All groups</a>
    <h2 id=\"name\" tabindex=\"-1\"></h2>
    <p class=\"lead\" id=\"leader\"></p>
    <p class=\"kind\" id=\"kind\" hidden></p>
    <p class=\"none\" id=\"missing\" hidden>There is no group of this name. It appears here when it is created.</p>

    <div class=\"parts\" id=\"parts\" hidden>
      <figure class=\"panel now\">
        <svg id=\"ring\" viewBox=\"24 8 352 366\" role=\"img\"></svg>
        <figcaption>
          <ul class=\"legend\">
            <li>
              <svg viewBox=\"0 0 24 24\" aria-hidden=\"true\"><path class=\"crown\" d=\"M5 18 L2 6 L8 11 L12 4 L16 11 L22 6 L19 18 Z\"/></svg>
              leads
            </li>
            <li>
              <svg viewBox=\"0 0 24 24\" aria-hidden=\"true\">
                <circle class=\"knows\" cx=\"12\" cy=\"12\" r=\"9\"/><path class=\"tick\" d=\"M7.5 12.5 L11 16 L16.5 9\"/>
              </svg>
              knows the leader
            </li>
            <li>
              <svg viewBox=\"0 0 24 24\" aria-hidden=\"true\"><rect class=\"waits\" x=\"4\" y=\"4\" width=\"16\" height=\"16\" rx=\"4\"/></svg>
              has not heard
            </li>
          </ul>
        </figcaption>
      </figure>

      <details class=\"panel election\" id=\"election\" hidden>
        <summary id=\"election-title\">An election of this ring, message by message</summary>
        <figure>
          <figcaption>How this ring's election goes in the order of a drain; not what was delivered here.</figcaption>
          <div class=\"chart\" id=\"chart\" tabindex=\"0\" role=\"region\" aria-labelledby=\"election-title\"><img id=\"picture\" alt=\"\"></div>
          <p class=\"none\" id=\"no-picture\" role=\"status\" hidden>There is no picture of this term.</p>
        </figure>
      </details>

      <section class=\"panel seen\" aria-labelledby=\"log-title\">
        <h3 id=\"log-title\">Seen by this page</h3>
        <ol class=\"log\" id=\"log\" role=\"log\" aria-live=\"polite\"></ol>
      </section>

      <div class=\"stack\">
        <section class=\"panel\" aria-labelledby=\"members-title\">
          <h3 id=\"members-title\">Members</h3>
          <div class=\"scroll\" tabindex=\"0\" role=\"region\" aria-labelledby=\"members-title\">
            <table>
              <thead><tr><th scope=\"col\">Number</th><th scope=\"col\">Weight</th><th scope=\"col\">In this term</th></tr></thead>
              <tbody id=\"members\"></tbody>
            </table>
          </div>
          <p class=\"none\">No members.</p>
        </section>

        <section class=\"panel\" aria-labelledby=\"terms-title\">
          <h3 id=\"terms-title\">Terms</h3>
          <ol class=\"terms\" id=\"terms\"></ol>
          <p class=\"none\">No term was started.</p>
          <details>
            <summary id=\"sooner\">Earlier terms</summary>
            <div class=\"scroll\" tabindex=\"0\" role=\"region\" aria-labelledby=\"sooner\"><ol class=\"terms\" id=\"earlier\"></ol></div>
          </details>
        </section>
      </div>
    </div>

    <p class=\"foot\" id=\"foot\" hidden>At place <span id=\"place\"></span> of the history, heard at <time id=\"heard\"></time>.</p>
  </main>
</div>
</body>
</html>
";
